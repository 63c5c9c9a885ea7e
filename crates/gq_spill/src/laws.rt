//! Laws: what the definitions imply. Each is the contract of a function that does nothing.
ghost use Rattle.std.specs.Prelude.{◌≡◌, IsTrue, length};
ghost use Rattle.gq_spill.specs.Laws.{ReadsBack};
ghost use Rattle.gq_spill.specs.Memory.{mem_runs};

use crate::mem_store::MemStore;

/// A store in memory reads back what was written, never fails, and counts each run once.
pub fn memory_is_honest(store: &MemStore)
    ensures honest { IsTrue (mem_runs store.now).honest }
    ensures failures { (mem_runs store.now).failures ≡ 0 }
    ensures made { (mem_runs store.now).made ≡ length store.now }
{
    let _ = store;
}

/// A reader of a run returns what the run's writer wrote, even if other runs change in between.
pub fn reads_back()
    ensures { ReadsBack }
{}
