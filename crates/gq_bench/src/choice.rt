//! The choice of what is measured.
use crate::topic::{TOPICS, Topic};

/// All works, or those that a word names: by their own name, or by their topic's.
#[derive(Clone, Copy)]
pub(crate) enum Choice<'a> {
    All,
    Named(&'a str),
}

impl<'a> Choice<'a> {
    /// The works that a word names, if it names any.
    pub(crate) fn of(word: &'a str) -> Option<Choice<'a>> {
        let choice = Choice::Named(word);
        for topic in TOPICS {
            if choice.is_in(topic) {
                return Some(choice);
            }
        }
        None
    }

    fn is_in(self, topic: Topic) -> bool {
        topic
            .works()
            .iter()
            .any(|&(_, name)| self.takes(topic, name))
    }

    /// Whether the work with a name is chosen.
    pub(crate) fn takes(self, topic: Topic, name: &str) -> bool {
        match self {
            Choice::All => true,
            Choice::Named(word) => word == topic.name() || word == name,
        }
    }
}
