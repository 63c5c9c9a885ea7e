//! The remaining tokens of a line.
ghost use Rattle.std.specs.Prelude.{◌≡◌, ◌==◌, ◌++◌, [], ◌∷◌, length, drop, IfNone, OnOk, option_to_list};
ghost use Rattle.gq_token.specs.Queue.{Skips, skip, leads, column_comma};
ghost use Rattle.gq_token.specs.declared.token.Terminal.TheVariants as terminal;

use crate::token::{Terminal, Token};
use std::alloc::{AllocFailed, Global};
use std::collections::VecDeque;
use std::marker::Model;

/// Tokens from left to right; the model is their list. The first is taken by value, without a copy.
#[derive(Drop)]
pub struct Tokens {
    tokens: VecDeque<Token>,
}

impl Model for Tokens {
    ghost use Rattle.std.specs.Prelude.{List};
    ghost use Rattle.gq_token.specs.declared.token.Token.{Token as Item};

    ghost Value = { List Item };

    ghost view = { λ t. t.tokens.items };
}

impl Tokens {
    pub fn new(alloc: Global) -> Tokens
        ensures { result ≡ [] }
    {
        Tokens {
            tokens: VecDeque::new(alloc),
        }
    }

    /// Appends a token.
    pub fn push(&mut self, token: Token) -> Result<(), AllocFailed<Token>>
        ensures { OnOk result (self.new ≡ self.old ++ token ∷ []) }
    {
        self.tokens.push_back(token)
    }

    pub fn len(&self) -> usize
        ensures { result ≡ length self.now }
    {
        self.tokens.len()
    }

    pub fn is_empty(&self) -> bool
        ensures { result ≡ (length self.now == 0) }
    {
        self.tokens.is_empty()
    }

    /// Takes the first token.
    pub fn take(&mut self) -> Option<Token>
        ensures some { self.old ≡ option_to_list result ++ self.new }
        ensures none { IfNone result (self.old ≡ []) }
    {
        self.tokens.pop_front()
    }

    /// Whether the first token is this word or sign.
    fn leads(&self, terminal: Terminal) -> bool
        ensures { result ≡ leads terminal self.now }
    {
        match self.tokens.front() {
            Some(Token::Fixed(first)) => first.is(terminal),
            _ => false,
        }
    }

    /// Takes this word or sign, and returns true, if it is the first token.
    pub fn skip(&mut self, terminal: Terminal) -> bool
        ensures { Skips (skip terminal self.old) result self.old self.new }
    {
        if self.leads(terminal) {
            self.tokens.pop_front();
            true
        } else {
            false
        }
    }

    /// Takes a comma, and returns true, if it is the first token and `key` doesn't follow it.
    #[tactic(auto, unfolding(crate::specs::Queue::column_comma))]
    pub fn skip_to_column(&mut self) -> bool
        ensures { Skips (column_comma self.old) result self.old self.new }
    {
        if self.leads(Terminal::Comma) && !self.key_is_second() {
            self.tokens.pop_front();
            true
        } else {
            false
        }
    }

    fn key_is_second(&self) -> bool
        ensures { result ≡ leads terminal.Key (drop 1 self.now) }
    {
        match self.tokens.get(1) {
            Some(Token::Fixed(second)) => second.is(Terminal::Key),
            _ => false,
        }
    }
}
