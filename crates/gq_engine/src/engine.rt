//! The engine, and what each command does.
ghost use Rattle.std.specs.Prelude.{◌≡◌, ◌∷◌, []};

use crate::catalog::Catalog;
use crate::csv_fault::CsvFault;
use crate::grouping::{GroupRequest, rows_asked, rows_different};
use crate::payloads::{stage_for, stage_text};
use crate::showing::all_shown;
use gq_command::{Command, Item, Payload, Test};
use gq_group::{Budget, Spent};
use gq_load::Short;
use gq_plan::{GroupClauses, header_of, plan_distinct};
use gq_reply::{Refusal, Refused, Reply};
use gq_row::{Column, Key, Limits, Row, Schema, Sequence, Text, find_positions};
use gq_spill::RunStore;
use std::alloc::Global;
use std::io::Read;
use sw_probe::KeyHash;

/// A database of tables, and what carries out commands on it. `H` hashes the keys of rows. A grouping
/// keeps at most the budget's number of groups in memory; the rows of other groups are spilled to
/// runs of the store `S`.
#[derive(Drop)]
pub struct Engine<H: KeyHash<Key>, S> {
    alloc: Global,
    hasher: H,
    catalog: Catalog<H>,
    store: S,
    budget: Budget,
    limits: Limits,
    spent: Spent,
}

impl<H: KeyHash<Key> + Copy, S: RunStore> Engine<H, S> {
    ghost use Rattle.std.specs.Prelude.{◌≡◌, ◌∷◌, [], true, IfOk, IfSome, OnErr};
    ghost use Rattle.gq_command.specs.declared.command.Payload.TheVariants as payload;
    ghost use Rattle.gq_command.specs.Commands.{is_command, as_said};
    ghost use Rattle.gq_engine.specs.Engines.{database, setting_of, failures_of, budget_of, spent_of, NOTHING_SPENT};
    ghost use Rattle.gq_engine.specs.Carrying.{Carried};
    ghost use Rattle.gq_engine.specs.Databases.{IsKeyed};
    ghost use Rattle.gq_engine.specs.Runs.{AnsweredAlike, AnsweredAsLists, KeptUnlessDone, FaultsHappened, SameTables, takes_no_memory};
    ghost use Rattle.gq_engine.specs.Spending.{Spends};
    ghost use Rattle.gq_engine.specs.Staging.{HasLoaded, HasPut};
    ghost use Rattle.gq_engine.specs.Steps.{load_table};

    /// An engine without tables, whose keys will be hashed by `hasher`.
    pub fn new(alloc: Global, hasher: H, store: S, budget: Budget, limits: Limits) -> Engine<H, S>
        ensures tables { database result ≡ [] }
        ensures limits { (setting_of S.runs result).limits ≡ limits.bounds }
        ensures honest { (setting_of S.runs result).honest ≡ (S.runs store).honest }
        ensures failures { failures_of S.runs result ≡ (S.runs store).failures }
        ensures budget { budget_of result ≡ budget.entries }
        ensures spent { spent_of result ≡ NOTHING_SPENT }
    {
        Engine {
            alloc,
            hasher,
            catalog: Catalog::new(alloc, hasher),
            store,
            budget,
            limits,
            spent: Spent {
                rows_read: 0,
                rows_written: 0,
                groups: 0,
                runs: 0,
            },
        }
    }

    /// The work of all `group` commands that were carried out, each number up to the greatest of 64
    /// bits. It leaves out the counting of distinct values, and `distinct`.
    pub fn spent(&self) -> Spent
        ensures { result ≡ spent_of self.now }
    {
        self.spent
    }

    pub(crate) fn alloc(&self) -> Global {
        self.alloc
    }

    pub(crate) fn limits(&self) -> &Limits
        ensures { result.now.bounds ≡ (setting_of S.runs self.now).limits }
    {
        &self.limits
    }

    // How many tables there are. In each no two rows have the same key.
    pub(crate) fn tables(&self) -> usize
        ensures { IsKeyed (database self.now) }
    {
        self.catalog.len()
    }

    /// Carries out one command, which some line says, a load with any payload.
    pub fn execute(&mut self, command: Command) -> Reply
        requires { is_command (as_said command) ≡ true }
        // As plain lists answer it; only memory and the run store may refuse what they accept.
        ensures legal { AnsweredAlike (setting_of S.runs self.old) (database self.old)
            (Item.Command command) result (database self.new) }
        // A drop and a delete take no memory, and are answered as plain lists answer them.
        ensures sure { takes_no_memory command ≡ true → AnsweredAsLists (setting_of S.runs self.old).limits
            (database self.old) (Item.Command command) result (database self.new) }
        // A failure of the run store is reported only if it failed.
        ensures faults { FaultsHappened (result ∷ []) (failures_of S.runs self.old)
            (failures_of S.runs self.new) }
        // Only a command that was carried out changes a table.
        ensures kept { KeptUnlessDone result (database self.old) (database self.new) }
        // Only a `group` that is carried out raises what was spent, by the work of one grouping.
        ensures spent { Spends (setting_of S.runs self.old).honest (budget_of self.old)
            (database self.old) command result (spent_of self.old) (spent_of self.new) }
        ensures setting { setting_of S.runs self.new ≡ setting_of S.runs self.old }
        ensures budget { budget_of self.new ≡ budget_of self.old }
    {
        match self.carry_out(command) {
            Ok(reply) => reply,
            Err(refused) => Reply::of_refused(refused),
        }
    }

    /// Puts the rows of a CSV text into the table of a name, all or none, as a `load` does with a
    /// payload, and returns their number. The text may have any length, and is never held whole.
    pub fn load_csv<R: Read + Drop>(
        &mut self,
        name: &str,
        text: R,
        short: Short,
    ) -> Result<u64, CsvFault>
        // Where the text's bytes are known: what the steps of a load of them come to.
        ensures loaded { IfSome (R.remaining text) (λ bytes. HasLoaded
            (load_table short (setting_of S.runs self.old).limits (database self.old) name.now (payload.Bytes bytes))
            result (database self.old) (database self.new)) }
        // Always: only rows that are put into the table of that name change the tables.
        ensures put { IfOk result (λ count. HasPut (setting_of S.runs self.old).limits (database self.old)
            name.now count (database self.new)) }
        ensures kept { OnErr result (SameTables (database self.old) (database self.new)) }
        ensures setting { setting_of S.runs self.new ≡ setting_of S.runs self.old }
        ensures failures { failures_of S.runs self.new ≡ failures_of S.runs self.old }
        ensures budget { budget_of self.new ≡ budget_of self.old }
        ensures spent { spent_of self.new ≡ spent_of self.old }
    {
        let (alloc, limits) = (self.alloc, &self.limits);
        let (staged, count) = stage_text(alloc, &self.catalog, name, text, short, limits)?;
        let _keyed = self.tables();
        self.catalog.load(name, staged, &self.limits)?;
        Ok(count)
    }

    // One command, step by step.
    fn carry_out(&mut self, command: Command) -> Result<Reply, Refused>
        requires { is_command (as_said command) ≡ true }
        ensures { Carried S.runs command result self.old self.new }
    {
        match command {
            Command::Create {
                table,
                columns,
                key,
            } => return self.create(table, columns, key),
            Command::Drop { table } => return self.drop_table(table),
            Command::Load { table, payload } => return self.load(table, payload),
            Command::Upsert { table, values } => return self.upsert(table, values),
            Command::Delete { table, values } => return self.delete(table, values),
            Command::Show { table } => return self.show(table),
            Command::Group {
                table,
                by,
                shown,
                tests,
                exists,
                having,
            } => {
                let clauses = GroupClauses {
                    by,
                    shown,
                    tests,
                    exists,
                    having,
                };
                return self.group(table.as_str(), &clauses);
            }
            Command::Distinct { table, on, tests } => {
                return self.distinct(table.as_str(), on, tests.as_slice());
            }
        }
    }

    fn create(
        &mut self,
        name: Text,
        columns: Sequence<Column>,
        key: Sequence<Text>,
    ) -> Result<Reply, Refused>
        requires { is_command (Command.Create name columns key) ≡ true }
        ensures { Carried S.runs (Command.Create name columns key) result self.old self.new }
    {
        if self.catalog.get(name.as_str()).is_some() {
            return Err(Refused::from(Refusal::TableExists));
        }
        let positions = find_positions(self.alloc, columns.as_slice(), key.as_slice())?.ok_or(
            Refusal::NoColumn,
        )?;
        if self.limits.bounds.tables <= self.catalog.len() {
            return Err(Refused::from(Refusal::Limit));
        }
        let schema = Schema::of(columns.into_vec(), positions.into_vec());
        self.catalog.add(name, schema)?;
        Ok(Reply::Done(0))
    }

    fn upsert(&mut self, name: Text, row: Row) -> Result<Reply, Refused>
        ensures { Carried S.runs (Command.Upsert name row) result self.old self.new }
    {
        self.catalog.upsert(name.as_str(), row, &self.limits)?;
        Ok(Reply::Done(1))
    }

    fn drop_table(&mut self, name: Text) -> Result<Reply, Refused>
        ensures { Carried S.runs (Command.Drop name) result self.old self.new }
    {
        self.catalog.remove(name.as_str())?;
        Ok(Reply::Done(0))
    }

    fn load(&mut self, name: Text, payload: Payload) -> Result<Reply, Refused>
        ensures { Carried S.runs (Command.Load name payload) result self.old self.new }
    {
        let (alloc, limits) = (self.alloc, &self.limits);
        let (staged, count) = stage_for(alloc, &self.catalog, name.as_str(), payload, limits)?;
        let _keyed = self.tables();
        self.catalog.load(name.as_str(), staged, &self.limits)?;
        Ok(Reply::Done(count))
    }

    fn delete(&mut self, name: Text, values: Row) -> Result<Reply, Refused>
        ensures { Carried S.runs (Command.Delete name values) result self.old self.new }
    {
        let mut values = values.into_cells();
        let found = self.catalog.delete(name.as_str(), values.as_mut_slice())?;
        Ok(Reply::Done(u64::from(found)))
    }

    fn show(&self, name: Text) -> Result<Reply, Refused>
        ensures { Carried S.runs (Command.Show name) result self.now self.now }
    {
        match self.catalog.get(name.as_str()) {
            Some(table) => all_shown(self.alloc, table),
            None => Err(Refused::from(Refusal::NoTable)),
        }
    }

    fn group(&mut self, name: &str, clauses: &GroupClauses) -> Result<Reply, Refused>
        ensures { Carried S.runs (Command.Group name.now clauses.now.by clauses.now.shown clauses.now.tests
            clauses.now.exists clauses.now.having) result self.old self.new }
    {
        let header = header_of(self.alloc, &clauses.by, clauses.shown.as_slice())?;
        let request = GroupRequest {
            catalog: &self.catalog,
            name,
            clauses,
        };
        let (alloc, hasher, store) = (self.alloc, self.hasher, &mut self.store);
        let (rows, spent) = rows_asked(alloc, hasher, &request, store, self.budget, self.spent)?;
        self.spent = spent;
        Ok(Reply::Rows { header, rows })
    }

    fn distinct(&mut self, name: &str, on: Sequence<Text>, tests: &[Test]) -> Result<Reply, Refused>
        requires { is_command (Command.Distinct name.now on tests.now) ≡ true }
        ensures { Carried S.runs (Command.Distinct name.now on tests.now) result self.old self.new }
    {
        let table = self.catalog.get(name).ok_or(Refusal::NoTable)?;
        let plan = plan_distinct(self.alloc, table.schema(), on.as_slice(), tests)?;
        let (hasher, store) = (self.hasher, &mut self.store);
        let rows = rows_different(self.alloc, hasher, table, &plan, store, self.budget)?;
        Ok(Reply::Rows { header: on, rows })
    }
}
