//! Laws: what the definitions come to, in the subject's own words. Each is the contract of a
//! function that does nothing.
ghost use Rattle.gq_engine.specs.Casing.{StoresAsGiven};
ghost use Rattle.gq_engine.specs.Databases.{IsFiniteMap};
ghost use Rattle.gq_engine.specs.Orders.{OrderIsUnseen};
ghost use Rattle.gq_engine.specs.Repeating.{AnswersOnce};
ghost use Rattle.gq_engine.specs.Runs.{OnlyMemoryRefuses};
ghost use Rattle.gq_engine.specs.Upserting.{LoadIsUpserts};

/// A database is a finite map from names to tables: each name is in it at most once.
pub fn database_is_a_map()
    ensures { IsFiniteMap }
{}

/// If the run store neither failed nor lied, each item of a legal run is answered as plain lists
/// answer it, or refused with `Memory` and the database unchanged.
pub fn only_memory_refuses()
    ensures { OnlyMemoryRefuses }
{}

/// Databases that differ only in the order of rows within tables give the same replies to every
/// list of items, and databases that again differ only so.
pub fn order_is_unseen()
    ensures { OrderIsUnseen }
{}

/// A load that is carried out leaves the tables that upserts of its rows, one after the other,
/// leave, and returns their number.
pub fn load_is_upserts()
    ensures { LoadIsUpserts }
{}

/// Two runs of one script give the same replies, and leave tables that differ at most in the order
/// of rows, if they began so and no reply is `Memory`.
pub fn answers_once()
    ensures { AnswersOnce }
{}

/// Where no column is of texts without case, an upsert puts the values that it is given, and a
/// delete takes away the row whose key they are.
pub fn stores_as_given()
    ensures { StoresAsGiven }
{}
