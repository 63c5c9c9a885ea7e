//! Loads: all rows of one keyed store are put into another, or none.
ghost use Rattle.std.specs.Prelude.{◌≡◌, ◌+◌, ◌<◌, ◌≤◌, ◌⊎◌, ◌++◌, IsTrue, IfOk, IfErr, OnOk, OnErr, length, map, take, count_by, fold};
ghost use Rattle.gq_row.specs.Rows.{key_of};
ghost use Rattle.gq_row.specs.Tables.{put_by_key};
ghost use Rattle.gq_table.specs.Keyed.{OwnKeys, AreApart};
ghost use Rattle.gq_table.specs.Places.{AreEven, ArePlaces, AreStillThere, AreThere, is_absent, with_place, without_place};
ghost use Rattle.gq_table.specs.declared.refusal.TableRefusal.TheVariants.{Limit, Memory};

use crate::keyed::KeyedRows;
use crate::refusal::TableRefusal;
use crate::row_store::RowStore;
use gq_row::Key;
use std::alloc::{AllocError, Global};
use sw_index::Found;
use sw_probe::KeyHash;

impl<H: KeyHash<Key> + Copy> KeyedRows<H> {
    // Puts all of `staged`, unless there would be more than `most` rows; on error none. Each key is looked up
    // once, and absent ones are added first, since only that can fail.
    pub(crate) fn load(
        &mut self,
        alloc: Global,
        positions: &[usize],
        staged: KeyedRows<H>,
        most: usize,
    ) -> Result<(), TableRefusal>
        requires even { AreEven self.old.rows staged.rows }
        requires own { OwnKeys positions.now self.old }
        requires mine { OwnKeys positions.now staged }
        requires apart { IsTrue (AreApart positions.now self.old.rows) }
        requires all_apart { IsTrue (AreApart positions.now staged.rows) }
        requires few { most ≤ 16777216 }
        ensures own { OwnKeys positions.now self.new }
        ensures ok { OnOk result (self.new.rows ≡
            fold (put_by_key positions.now) self.old.rows staged.rows) }
        ensures few { OnOk result
            (length (fold (put_by_key positions.now) self.old.rows staged.rows) ≤ most) }
        ensures err { OnErr result (self.new ≡ self.old) }
        ensures why { IfErr result (λ why. ((why ≡ Limit)
            × (most < length (fold (put_by_key positions.now) self.old.rows staged.rows)))
            ⊎ (why ≡ Memory)) }
    {
        if self.rows.is_empty() {
            if most < staged.len() {
                return Err(TableRefusal::Limit);
            }
            *self = staged;
            return Ok(());
        }
        let Ok(places) = self.places_of(alloc, positions, &staged) else {
            return Err(TableRefusal::Memory);
        };
        let new = count_absent(places.as_slice());
        if most < self.len().saturating_add(new) {
            return Err(TableRefusal::Limit);
        }
        let KeyedRows { index, rows } = staged;
        let keys = index.into_keys();
        let mut rows = rows;
        let Ok(()) = self.add_absent(positions, places.as_slice(), keys, &mut rows) else {
            return Err(TableRefusal::Memory);
        };
        self.place_found(positions, places.as_slice(), &mut rows);
        Ok(())
    }

    // For each staged row, where its key is in this store, or that it is absent.
    fn places_of(
        &self,
        alloc: Global,
        positions: &[usize],
        staged: &KeyedRows<H>,
    ) -> Result<Vec<Found>, AllocError>
        requires own { OwnKeys positions.now self.now }
        requires mine { OwnKeys positions.now staged.now }
        ensures { IfOk result (λ places. ArePlaces positions.now
            (H.hash_of self.now.index.hasher) self.now.rows staged.now.rows
            places.items) }
    {
        let _ = positions;
        let keys = staged.index.keys();
        let mut places = Vec::with_capacity(alloc, keys.len())?;
        for i in 0..keys.len() {
            places.push(self.index.find(&keys[i]))?;
        }
        Ok(places)
    }

    // Adds the absent rows, whose keys and values move. On error none is added.
    fn add_absent(
        &mut self,
        positions: &[usize],
        places: &[Found],
        keys: Vec<Key>,
        staged: &mut RowStore,
    ) -> Result<(), AllocError>
        requires even { AreEven self.old.rows staged.old }
        requires own { OwnKeys positions.now self.old }
        requires keys { keys.items ≡ map (key_of positions.now) staged.old }
        requires apart { IsTrue (AreApart positions.now staged.old) }
        requires places { ArePlaces positions.now
            (H.hash_of self.old.index.hasher) self.old.rows staged.old places.now }
        ensures rows { OnOk result (self.new.rows ≡
            self.old.rows ++ without_place staged.old places.now) }
        ensures own { OwnKeys positions.now self.new }
        ensures there { OnOk result (AreStillThere staged.new staged.old places.now) }
        ensures err { OnErr result (self.new ≡ self.old) }
    {
        let rows = self.len();
        match self.add_each(positions, places, keys, staged) {
            Ok(()) => Ok(()),
            Err(e) => {
                self.leave(rows);
                Err(e)
            }
        }
    }

    // Adds the absent rows one by one. On error some may have been added, after all others.
    fn add_each(
        &mut self,
        positions: &[usize],
        places: &[Found],
        keys: Vec<Key>,
        staged: &mut RowStore,
    ) -> Result<(), AllocError>
        requires even { AreEven self.old.rows staged.old }
        requires own { OwnKeys positions.now self.old }
        requires keys { keys.items ≡ map (key_of positions.now) staged.old }
        requires apart { IsTrue (AreApart positions.now staged.old) }
        requires places { ArePlaces positions.now
            (H.hash_of self.old.index.hasher) self.old.rows staged.old places.now }
        ensures rows { OnOk result (self.new.rows ≡
            self.old.rows ++ without_place staged.old places.now) }
        ensures own { OwnKeys positions.now self.new }
        ensures there { OnOk result (AreStillThere staged.new staged.old places.now) }
        ensures kept { take (length self.old.rows) self.new.rows ≡ self.old.rows }
        ensures hasher { self.new.index.hasher ≡ self.old.index.hasher }
    {
        let _ = positions;
        let mut keys = keys.into_iter();
        'rows: for i in 0..places.len() {
            let Some(key) = keys.next() else {
                unreachable!()
            };
            match places[i] {
                Found::Absent(absence) => self.push(absence, key, staged.row_mut(i))?,
                // A call: an inline drop would be proved variant by variant here.
                Found::At(_) => drop(key),
            }
        }
        Ok(())
    }

    // Keeps the first `rows` rows.
    #[cold]
    fn leave(&mut self, rows: usize)
        ensures rows { self.new.rows ≡ take rows self.old.rows }
        ensures keys { self.new.index.keys ≡ take rows self.old.index.keys }
        ensures hasher { self.new.index.hasher ≡ self.old.index.hasher }
    {
        self.rows.truncate(rows);
        self.index.truncate(rows);
    }

    // Exchanges each row that was found with the stored one.
    fn place_found(&mut self, positions: &[usize], places: &[Found], staged: &mut RowStore)
        requires even { AreEven self.old.rows staged.old }
        requires own { OwnKeys positions.now self.old }
        requires apart { IsTrue (AreApart positions.now self.old.rows) }
        requires there { AreThere positions.now self.old.rows staged.old places.now }
        ensures rows { self.new.rows ≡
            fold (put_by_key positions.now) self.old.rows (with_place staged.old places.now) }
        ensures own { OwnKeys positions.now self.new }
    {
        let _ = positions;
        'rows: for i in 0..places.len() {
            if let Found::At(number) = places[i] {
                self.rows.exchange(number, staged.row_mut(i));
            }
        }
    }
}

// The number of absent rows.
fn count_absent(places: &[Found]) -> usize
    ensures { result ≡ count_by is_absent places.now }
{
    places
        .iter()
        .filter(|place| matches!(place, Found::Absent(_)))
        .count()
}
