//! Topics: works that belong together, and their names.
use crate::shape::{CASES, FIFTHS, SHAPES, Shape};
use crate::task::Task;
use crate::work::{GREATEST, Place, Work};

/// A topic of works.
#[derive(Clone, Copy)]
pub(crate) enum Topic {
    /// Rows put into tables, and shown.
    Tables,
    /// Groups, all kept in memory.
    Groups,
    /// Groups within budgets.
    Budgets,
    /// Texts with case, and the same without.
    Cases,
    /// Groups by two columns with four aggregates, and totals.
    Totals,
    /// Groups of reports with one, two and four aggregates, all kept in memory.
    Reports,
    /// Groups of reports with four aggregates, within budgets.
    ReportBudgets,
}

/// All topics.
pub(crate) const TOPICS: [Topic; 7] = [
    Topic::Tables,
    Topic::Groups,
    Topic::Budgets,
    Topic::Cases,
    Topic::Totals,
    Topic::Reports,
    Topic::ReportBudgets,
];

const TABLES: [(Work, &str); 6] = [
    (Work::Csv, "csv"),
    (Work::CsvAndMap, "csv and map"),
    (Work::Run(Task::Load), "load"),
    (Work::Run(Task::LoadWithoutKey), "load, no key"),
    (Work::Run(Task::Upsert), "upsert"),
    (Work::Run(Task::Show), "show"),
];

const GROUPS: [(Work, &str); 7] = [
    (Work::Find, "map find"),
    (Work::Insert, "map insert"),
    (Work::Run(Task::Count), "group, count"),
    (Work::Run(Task::CountWhere), "count, where"),
    (Work::Run(Task::CountExists), "count, exists"),
    (Work::Run(Task::Sum), "group, sum"),
    (Work::Run(Task::Distinct), "distinct"),
];

const CASE_WORKS: [(Work, &str); 5] = [
    (Work::Find, "map find, case"),
    (Work::Run(Task::Load), "load, case"),
    (Work::Run(Task::Count), "count, case"),
    (Work::Run(Task::CountExists), "exists, case"),
    (Work::Run(Task::Distinct), "distinct, case"),
];

const TOTALS: [(Work, &str); 3] = [
    (Work::Run(Task::Wide), "two columns"),
    (Work::Run(Task::Levels), "three groups"),
    (Work::Run(Task::Rollup), "rollup"),
];

const REPORTS: [(Work, &str); 3] = [
    (Work::Run(Task::OneAggregate), "one aggregate"),
    (Work::Run(Task::TwoAggregates), "two aggregates"),
    (Work::Run(Task::FourAggregates), "four aggregates"),
];

const REPORT_BUDGETS: [(Work, &str); 2] = [
    (
        Work::Within(Task::FourAggregates, GREATEST, Place::Memory),
        "four, budget 1048576",
    ),
    (
        Work::Within(Task::FourAggregates, 10_000, Place::Memory),
        "four, budget 10000",
    ),
];

const BUDGETS: [(Work, &str); 6] = [
    (
        Work::Within(Task::Count, GREATEST, Place::Memory),
        "budget 1048576, memory",
    ),
    (
        Work::Within(Task::Count, 65_536, Place::Memory),
        "budget 65536, memory",
    ),
    (
        Work::Within(Task::Count, 10_000, Place::Memory),
        "budget 10000, memory",
    ),
    (
        Work::Within(Task::Count, GREATEST, Place::Folder),
        "budget 1048576, folder",
    ),
    (
        Work::Within(Task::Count, 65_536, Place::Folder),
        "budget 65536, folder",
    ),
    (
        Work::Within(Task::Count, 10_000, Place::Folder),
        "budget 10000, folder",
    ),
];

impl Topic {
    /// The topic's name. Topics with one name are chosen together.
    pub(crate) fn name(self) -> &'static str {
        match self {
            Topic::Tables => "tables",
            Topic::Groups => "groups",
            Topic::Budgets => "budgets",
            Topic::Cases => "cases",
            Topic::Totals => "totals",
            Topic::Reports | Topic::ReportBudgets => "reports",
        }
    }

    /// The topic's works, each with its name.
    pub(crate) fn works(self) -> &'static [(Work, &'static str)] {
        match self {
            Topic::Tables => &TABLES,
            Topic::Groups => &GROUPS,
            Topic::Budgets => &BUDGETS,
            Topic::Cases => &CASE_WORKS,
            Topic::Totals => &TOTALS,
            Topic::Reports => &REPORTS,
            Topic::ReportBudgets => &REPORT_BUDGETS,
        }
    }

    /// The shapes of rows that the works are done on.
    pub(crate) fn shapes(self) -> &'static [Shape] {
        match self {
            Topic::Tables => &SHAPES,
            Topic::Groups => &SHAPES,
            Topic::Budgets => &FIFTHS,
            Topic::Cases => &CASES,
            Topic::Totals => &SHAPES,
            Topic::Reports => &SHAPES,
            Topic::ReportBudgets => &FIFTHS,
        }
    }
}
