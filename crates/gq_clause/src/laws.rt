//! Laws: parsing and writing agree. A list that is parsed is valid, and was written by the grammar;
//! a valid list that is written is parsed again, whatever follows it but a separator. A text
//! without case isn't a literal: a string is a text. Each is the contract of a function that does
//! nothing.
ghost use Rattle.gq_clause.specs.Agreeing.{AggregatesAgree, LiteralsAgree, NamesAgree, TestsAgree};

pub fn names_agree()
    ensures { NamesAgree }
{}

pub fn literals_agree()
    ensures { LiteralsAgree }
{}

pub fn aggregates_agree()
    ensures { AggregatesAgree }
{}

pub fn tests_agree()
    ensures { TestsAgree }
{}
