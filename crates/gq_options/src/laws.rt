//! Laws: what the definitions imply. Each is the contract of a function that does nothing.
ghost use Rattle.gq_options.specs.CommandLine.{BudgetsWorked, FoldersWorked, OutputsWorked, SeedsWorked, TablesWorked};
ghost use Rattle.gq_options.specs.CommandLine.{TakesCheck, TakesCommands, TakesOneBudget, TakesOneFolder, TakesOnePath, TakesOneSeed, TakesOutput, TakesRagged, TakesRandom, TakesStats, TakesTables};

/// The program takes at most one path, and distinguishes help and the version from mistakes.
pub fn takes_one_path()
    ensures { TakesOnePath }
{}

/// Besides a path it takes one seed, before or after it.
pub fn takes_one_seed()
    ensures vary { TakesOneSeed }
    ensures worked { SeedsWorked }
{}

/// The word `random` asks for a seed from the system, before a path or after it.
pub fn takes_random()
    ensures { TakesRandom }
{}

/// Besides a path and a seed it takes one budget, before or after them.
pub fn takes_one_budget()
    ensures vary { TakesOneBudget }
    ensures worked { BudgetsWorked }
{}

/// Besides these it takes one folder, before or after them.
pub fn takes_one_folder()
    ensures vary { TakesOneFolder }
    ensures worked { FoldersWorked }
{}

/// Besides these it takes the flag for the report, once.
pub fn takes_stats()
    ensures { TakesStats }
{}

/// Besides these it takes the flag for a check, once.
pub fn takes_check()
    ensures { TakesCheck }
{}

/// Besides these it takes tables, any number of them, and keeps their order.
pub fn takes_tables()
    ensures vary { TakesTables }
    ensures worked { TablesWorked }
{}

/// Without a path it takes commands, any number of them, and keeps their order.
pub fn takes_commands()
    ensures { TakesCommands }
{}

/// Besides these it takes one of four output formats.
pub fn takes_output()
    ensures vary { TakesOutput }
    ensures worked { OutputsWorked }
{}

/// Besides these it takes the flag for rows of other lengths, once.
pub fn takes_ragged()
    ensures { TakesRagged }
{}
