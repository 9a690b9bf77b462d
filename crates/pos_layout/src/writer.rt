//! The writer of a plot file.
ghost use Rattle.std.specs.Prelude.{◌≡◌, ◌<◌, ◌≤◌, ◌∷◌, [], ◌++◌, ℕ, List, length, IfOk, OnOk};
ghost use Rattle.pos_bits.specs.Bits.{AreBytes};
ghost use Rattle.pos_layout.specs.Layouts.{full_of, memo_of};
ghost use Rattle.pos_layout.specs.Files.{file_of, parks_in};
ghost use Rattle.pos_layout.specs.Drafts.{Draft, Keeps, Stands, begun, added, table_ended, plot_of, count_so_far, SameTable, IsFinished};
ghost use Rattle.pos_layout.specs.Images.{IsFresh, IsShut, IsShutOr, IsTinyOrShut};
ghost use Rattle.pos_layout.specs.Writing.{Works, IsStanding, Goes, IsBegun, MayAdd, SameFile, OneMore, OpensNext};

use crate::entry::park_entry;
use crate::shut::{append, begin_shut, finish_shut};
use crate::{Column, HEADER_BYTES, Header, Layout, encode_header};
use pos_edge::{Disk, FileId, WorkFault};
use pos_rice::encode_park;
use pos_tuple::{Id, Size};
use std::alloc::Global;
use std::marker::Model;

/// Writes one plot file: the numbers of table 1 in rising order, then those of table 2, and so on to table 7.
///
/// It keeps the numbers of one park and the directory of one table. Contracts see its file, the layout, the memo's length,
/// the id, the size, the columns of the ended tables, and of the open one how many numbers it has, the least that may come
/// next, the park and the directory so far. What it stands for, the lists of all tables, is said of it and of the disk by
/// `Stands`.
#[derive(Drop)]
pub struct PlotWriter {
    alloc: Global,
    file: FileId,
    layout: Layout,
    memo_length: u16,
    id: Id,
    size: Size,
    columns: [Column; 7],
    ended: usize,
    count: u64,
    least: u128,
    park: Vec<u128>,
    entries: Vec<u8>,
    file_length: u64,
}

impl Model for PlotWriter {
    ghost use Rattle.std.specs.Prelude.{◌≡◌, ◌≤◌, length, take};
    ghost use Rattle.pos_layout.specs.Drafts.{WriterState};

    ghost Value = { WriterState };

    ghost view = { λ w. record {
      file = w.file.0;
      layout = w.layout;
      memo_length = w.memo_length;
      id = w.id.0;
      size = w.size;
      columns = take w.ended w.columns;
      count = w.count;
      least = w.least;
      park = w.park.items;
      entries = w.entries.items;
      file_length = w.file_length;
    } };

    ghost invariant = { λ w. (w.ended ≤ 7) × (length w.columns ≡ 7) };
}

impl PlotWriter {
    /// Begins the file of a plot: writes one closed gate byte, syncs it, and only then writes more.
    ///
    /// The file is live and empty, and the memo as long as the layout allows. After a fault the file does not open.
    pub fn begin<D: Disk>(
        alloc: Global,
        file: FileId,
        layout: Layout,
        memo: &[u8],
        id: &Id,
        size: Size,
        disk: &mut D,
    ) -> Result<PlotWriter, WorkFault>
        requires memo { length memo.now ≤ memo_of layout }
        requires fresh { IsFresh file.0 (D.view disk.old) }
        ensures works { Works IsTinyOrShut file.0 result (D.view disk.old) (D.view disk.new) }
        ensures begun { IfOk result (IsBegun file.0 layout size) }
        ensures ok { IfOk result (λ w. Stands w (begun layout memo.now id.now.0 size) (D.view disk.new)) }
    {
        are_id_bytes(&id.0);
        are_bytes(memo);
        begin_shut(disk, file, memo)?;
        Ok(PlotWriter {
            alloc,
            file,
            layout,
            memo_length: memo.len() as u16,
            id: *id,
            size,
            columns: [Column {
                count: 0,
                directory: 0,
            }; 7],
            ended: 0,
            count: 0,
            least: 0,
            park: Vec::new(alloc),
            entries: Vec::new(alloc),
            file_length: (HEADER_BYTES + memo.len()) as u64,
        })
    }

    /// Adds a number to the open table. A park is written when it is full.
    ///
    /// Fewer than seven tables are ended, the number is above the last one of the table and has 2k + 2 bits, and the table
    /// has fewer than 2^(k + 1) numbers. A fault ends the writer, and the file does not open.
    pub fn add<D: Disk>(&mut self, disk: &mut D, number: u128) -> Result<(), WorkFault>
        requires stands { IsStanding self.old (D.view disk.old) }
        requires next { MayAdd number self.old }
        ensures works { Works IsShut self.old.file result (D.view disk.old) (D.view disk.new) }
        ensures same { SameFile self.old self.new }
        ensures columns { self.new.columns ≡ self.old.columns }
        ensures one_more { OnOk result (OneMore number self.old self.new) }
        ensures ok { OnOk result (Goes (added number) self.old self.new (D.view disk.old) (D.view disk.new)) }
    {
        self.park.push(number).map_err(|_| WorkFault::Memory)?;
        self.count += 1;
        self.least = number + 1;
        if self.park.len() == self.layout.full_park() {
            self.write_park(disk)?;
        }
        Ok(())
    }

    /// Ends the open table: writes what is left of its numbers, and its directory. The next table is open then.
    ///
    /// Fewer than seven tables are ended. A fault ends the writer, and the file does not open.
    pub fn end_table<D: Disk>(&mut self, disk: &mut D) -> Result<(), WorkFault>
        requires stands { IsStanding self.old (D.view disk.old) }
        requires tables { length self.old.columns < 7 }
        ensures works { Works IsShut self.old.file result (D.view disk.old) (D.view disk.new) }
        ensures same { SameFile self.old self.new }
        ensures next { OnOk result (OpensNext self.old self.new) }
        ensures ok { OnOk result (Goes table_ended self.old self.new (D.view disk.old) (D.view disk.new)) }
    {
        self.write_rest(disk)?;
        self.write_directory(disk)
    }

    /// Writes the header but its gate, syncs, opens the gate in a write of its own, syncs, and answers the file's length
    /// in bytes.
    ///
    /// Seven tables are ended. After a fault each image of the file does not open or is the finished file.
    pub fn finish<D: Disk>(self, disk: &mut D) -> Result<u64, WorkFault>
        requires stands { IsStanding self (D.view disk.old) }
        requires tables { length self.columns ≡ 7 }
        ensures works { (p : Draft) → Stands self p (D.view disk.old)
            → Works (IsShutOr (file_of p.layout p.memo (plot_of p))) self.file result (D.view disk.old) (D.view disk.new) }
        ensures ok { IfOk result (λ total. (p : Draft) → Stands self p (D.view disk.old)
            → IsFinished p.layout p.memo self.file (plot_of p) total (D.view disk.new)) }
    {
        let columns = self.columns;
        let bytes = encode_header(&Header {
            layout: self.layout,
            id: self.id,
            size: self.size,
            memo_length: self.memo_length,
            columns,
            file_length: self.file_length,
        });
        finish_shut(disk, self.file, &bytes[1..])?;
        Ok(self.file_length)
    }

    /// Writes the numbers that are not in the file yet as a park.
    fn write_park<D: Disk>(&mut self, disk: &mut D) -> Result<(), WorkFault>
        requires keeps { (p : Draft) × (parks : List (List ℕ)) × Keeps self.old p parks (D.view disk.old) }
        requires tables { length self.old.columns < 7 }
        requires some { 1 ≤ length self.old.park }
        requires few { length self.old.park ≤ full_of self.old.layout }
        ensures works { Works IsShut self.old.file result (D.view disk.old) (D.view disk.new) }
        ensures same { SameTable self.old self.new }
        ensures park { OnOk result (self.new.park ≡ []) }
        ensures ok { OnOk result ((p : Draft) (parks : List (List ℕ)) → Keeps self.old p parks (D.view disk.old)
            → Keeps self.new p (parks ++ self.old.park ∷ []) (D.view disk.new)) }
    {
        let park = encode_park(self.alloc, self.size.k(), &self.park).map_err(
            |_| WorkFault::Memory,
        )?;
        let entry = park_entry(
            self.layout,
            self.size,
            self.ended + 1,
            self.file_length,
            &self.park,
            &park,
        );
        self.entries
            .extend_from_slice(&entry[..self.layout.entry_bytes()])
            .map_err(|_| WorkFault::Memory)?;
        append(disk, self.file, self.file_length, &park)?;
        self.file_length += park.len() as u64;
        self.park.clear();
        Ok(())
    }

    /// Writes the numbers of the open table that are not in the file yet, if there are any, as its last park.
    fn write_rest<D: Disk>(&mut self, disk: &mut D) -> Result<(), WorkFault>
        requires stands { IsStanding self.old (D.view disk.old) }
        requires tables { length self.old.columns < 7 }
        ensures works { Works IsShut self.old.file result (D.view disk.old) (D.view disk.new) }
        ensures same { SameTable self.old self.new }
        ensures park { OnOk result (self.new.park ≡ []) }
        ensures ok { OnOk result ((p : Draft) → Stands self.old p (D.view disk.old)
            → Keeps self.new p (parks_in p.layout p.numbers) (D.view disk.new)) }
    {
        if self.park.is_empty() {
            return Ok(());
        }
        self.write_park(disk)
    }

    /// Writes the directory of the open table, whose parks are all in the file, and opens the next table.
    fn write_directory<D: Disk>(&mut self, disk: &mut D) -> Result<(), WorkFault>
        requires keeps { (p : Draft) × (parks : List (List ℕ)) × Keeps self.old p parks (D.view disk.old) }
        requires tables { length self.old.columns < 7 }
        requires written { self.old.park ≡ [] }
        ensures works { Works IsShut self.old.file result (D.view disk.old) (D.view disk.new) }
        ensures same { SameFile self.old self.new }
        ensures next { OnOk result (OpensNext self.old self.new) }
        ensures ok { OnOk result ((p : Draft) → Keeps self.old p (parks_in p.layout p.numbers) (D.view disk.old)
            → Keeps self.new (table_ended p) [] (D.view disk.new)) }
        ensures park { OnOk result (self.new.park ≡ []) }
    {
        append(disk, self.file, self.file_length, &self.entries)?;
        self.columns[self.ended] = Column {
            count: self.count,
            directory: self.file_length,
        };
        self.ended += 1;
        self.file_length += self.entries.len() as u64;
        self.entries.clear();
        self.count = 0;
        self.least = 0;
        Ok(())
    }

    /// How many numbers table t, from 1 to 7, has so far.
    pub fn count(&self, t: u8) -> u64
        requires first { 1 ≤ t }
        requires last { t ≤ 7 }
        ensures { result ≡ count_so_far self.now t }
    {
        let table = t as usize - 1;
        if table < self.ended {
            self.columns[table].count
        } else if table == self.ended {
            self.count
        } else {
            0
        }
    }
}

// What is known of the bytes of any id.
fn are_id_bytes(bytes: &[u8; 32])
    ensures len { length bytes.now ≡ 32 }
    ensures bytes { AreBytes bytes.now }
{
    are_bytes(bytes);
}

// What is known of any bytes.
fn are_bytes(bytes: &[u8])
    ensures { AreBytes bytes.now }
{
    let _ = bytes;
}
