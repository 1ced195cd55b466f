//! What a core keeps, followed from event to event.

ghost use Rattle.std.specs.Prelude.{◌≡◌, ◌≤◌, ℕ, List, [], ◌∷◌, ◌++◌, Some, true, length, option_copied, IfOk, IfSome, OnOk, OnErr};
ghost use Rattle.era_base.specs.declared.limits.TheConstants.{MOST_SETS};
ghost use Rattle.era_core.specs.KeptState.{HasPushed, IsKeptUp, changes_metadata, target_block, written_block_of};
ghost use Rattle.era_core.specs.Present.{HaveContents, HaveStripes};
ghost use Rattle.era_model.specs.History.{in_flight, is_open};
ghost use Rattle.era_model.specs.Marking.{held_of, marks_of};
ghost use Rattle.era_model.specs.Writes.{write_of};
ghost use Rattle.era_model.specs.declared.history.Happening.TheVariants.{Crashed, Happened, Opened};
ghost use Rattle.era_model.specs.declared.history.Happening.{Happening};
ghost use Rattle.era_model.specs.declared.history.Images.{Images};

use crate::block_table::BlockTable;
use crate::upkeep::Upkeep;
use era_base::{Bytes, CmdId, Memory};
use era_model::{
    Event, FlightWrite, Marks, Opening, find_write, follow_content, follow_writes, opening_content,
};
use std::alloc::Global;

/// The content of each block at an opening.
fn opening_contents(alloc: Global, opening: &Opening) -> Result<Vec<Bytes>, Memory>
    ensures { IfOk result (λ contents. HaveContents (Opened opening.now ∷ []) contents.items) }
{
    let mut contents = Vec::new(alloc);
    for block in 0..opening.geometry.blocks() {
        contents.push(opening_content(alloc, opening, block)?)?;
    }
    Ok(contents)
}

/// The snapshot block by block, if there is one.
fn held_table(alloc: Global, held: Option<&Marks>) -> Result<Option<BlockTable>, Memory>
    ensures { IfOk result (λ table. table ≡ option_copied held.entry) }
{
    match held {
        Some(marks) => Ok(Some(BlockTable::of_marks(alloc, marks)?)),
        None => Ok(None),
    }
}

/// Whether the event changes the marks or the snapshot.
fn is_of_metadata(event: &Event) -> bool
    ensures { result ≡ changes_metadata event.now }
{
    match event {
        Event::Mark { .. } => true,
        Event::Roll { .. } => true,
        Event::Digest { .. } => true,
        Event::Snap { .. } => true,
        Event::Dropped { .. } => true,
        _ => false,
    }
}

/// The block of the command's write, where it is among them.
fn block_of(writes: &[FlightWrite], id: CmdId) -> Option<u32>
    ensures { result ≡ written_block_of (write_of writes.now id) }
{
    match find_write(writes, id) {
        Some(write) => Some(write.block),
        None => None,
    }
}

/// The block whose content the event changes, or `None`.
fn target_of(writes: &[FlightWrite], event: &Event) -> Option<u32>
    ensures { result ≡ target_block writes.now event.now }
{
    match event {
        Event::Done { id } => block_of(writes, *id),
        Event::Settle {
            by: _,
            cut,
            bytes: _,
        } => block_of(writes, *cut),
        _ => None,
    }
}

impl Upkeep {
    /// What a core keeps at the opening of a session.
    pub fn at_opening(alloc: Global, opening: &Opening) -> Result<Upkeep, Memory>
        requires sets { length opening.now.marks.archive ≤ MOST_SETS }
        requires held { IfSome opening.now.held (λ m. length m.archive ≤ MOST_SETS) }
        requires stripes { 1 ≤ opening.now.stripes }
        ensures { (h : List Happening) → HaveStripes h
            → IfOk result (IsKeptUp (Opened opening.now ∷ h)) }
    {
        let contents = opening_contents(alloc, opening)?;
        let marks = BlockTable::of_marks(alloc, &opening.marks)?;
        let held = held_table(alloc, opening.held.as_ref())?;
        let mut past = Vec::new(alloc);
        past.push(marks.copy(alloc)?)?;
        Ok(Upkeep {
            writes: Vec::new(alloc),
            contents,
            marks,
            past,
            held,
        })
    }

    /// Takes over marks that have changed.
    fn change_marks(&mut self, alloc: Global, next: BlockTable) -> Result<(), Memory>
        ensures marks { OnOk result (self.new.marks ≡ next) }
        ensures past { OnOk result (self.new.past.items ≡ self.old.past.items ++ next ∷ []) }
        ensures others { (self.new.writes.items ≡ self.old.writes.items)
            × (self.new.contents.items ≡ self.old.contents.items)
            × (self.new.held ≡ self.old.held) }
        ensures err { OnErr result ((self.new.marks ≡ self.old.marks)
            × (self.new.past.items ≡ self.old.past.items)) }
    {
        self.past.push(next.copy(alloc)?)?;
        self.marks = next;
        Ok(())
    }

    /// Follows an event that changes the marks or the snapshot. `era` is the present one.
    fn follow_metadata(&mut self, alloc: Global, era: u32, event: &Event) -> Result<(), Memory>
        requires { self.old.marks.era ≡ era }
        ensures marks { (h : List Happening) → self.old.marks ≡ marks_of h
            → OnOk result (self.new.marks ≡ marks_of (Happened event.now ∷ h)) }
        ensures held { (h : List Happening) → self.old.marks ≡ marks_of h
            → self.old.held ≡ held_of h
            → OnOk result (self.new.held ≡ held_of (Happened event.now ∷ h)) }
        ensures past { OnOk result
            (HasPushed self.old.past.items self.old.marks self.new.past.items self.new.marks) }
        ensures origin { (self.new.writes.items ≡ self.old.writes.items)
            × (self.new.contents.items ≡ self.old.contents.items) }
        ensures err { OnErr result ((self.new.marks ≡ self.old.marks)
            × (self.new.past.items ≡ self.old.past.items) × (self.new.held ≡ self.old.held)) }
    {
        match event {
            Event::Mark {
                id: _,
                block,
                era: _,
            } => {
                let mut next = self.marks.copy(alloc)?;
                next.mark(*block);
                self.change_marks(alloc, next)
            }
            Event::Roll { .. } => {
                let next = self.marks.after_switch(alloc)?;
                self.change_marks(alloc, next)
            }
            Event::Digest {
                id: _,
                era: _,
                page,
            } => {
                let mut next = self.marks.copy(alloc)?;
                next.digest(*page);
                self.change_marks(alloc, next)
            }
            Event::Snap { .. } => {
                self.held = Some(self.marks.copy(alloc)?);
                Ok(())
            }
            Event::Dropped { .. } => {
                self.held = None;
                Ok(())
            }
            _ => Ok(()),
        }
    }

    /// Follows an event that changes the block's content.
    fn follow_block(&mut self, alloc: Global, block: u32, event: &Event) -> Result<(), Memory>
        requires { target_block self.old.writes.items event.now ≡ Some block }
        ensures flight { (h : List Happening) → self.old.writes.items ≡ in_flight h
            → OnOk result (self.new.writes.items ≡ in_flight (Happened event.now ∷ h)) }
        ensures contents { (h : List Happening) → self.old.writes.items ≡ in_flight h
            → HaveContents h self.old.contents.items
            → OnOk result (HaveContents (Happened event.now ∷ h) self.new.contents.items) }
        ensures metadata { (self.new.marks ≡ self.old.marks)
            × (self.new.past.items ≡ self.old.past.items) × (self.new.held ≡ self.old.held) }
        ensures err { OnErr result ((self.new.writes.items ≡ self.old.writes.items)
            × (self.new.contents.items ≡ self.old.contents.items)) }
    {
        let index = block as usize;
        if self.contents.len() <= index {
            return follow_writes(alloc, &mut self.writes, event);
        }
        let before = Bytes::from_slice(alloc, self.contents[index].as_slice())?;
        let after = follow_content(alloc, before, block, self.writes.as_slice(), event)?;
        follow_writes(alloc, &mut self.writes, event)?;
        self.contents[index] = after;
        Ok(())
    }

    /// Follows an event that leaves the marks and the snapshot.
    fn follow_origin(&mut self, alloc: Global, event: &Event) -> Result<(), Memory>
        ensures flight { (h : List Happening) → self.old.writes.items ≡ in_flight h
            → OnOk result (self.new.writes.items ≡ in_flight (Happened event.now ∷ h)) }
        ensures contents { (h : List Happening) → self.old.writes.items ≡ in_flight h
            → HaveContents h self.old.contents.items
            → OnOk result (HaveContents (Happened event.now ∷ h) self.new.contents.items) }
        ensures metadata { (self.new.marks ≡ self.old.marks)
            × (self.new.past.items ≡ self.old.past.items) × (self.new.held ≡ self.old.held) }
        ensures err { OnErr result ((self.new.writes.items ≡ self.old.writes.items)
            × (self.new.contents.items ≡ self.old.contents.items)) }
    {
        match target_of(self.writes.as_slice(), event) {
            Some(block) => self.follow_block(alloc, block, event),
            None => follow_writes(alloc, &mut self.writes, event),
        }
    }

    /// Follows an event of a session that is open. `era` is the present one. After `Memory` nothing has changed.
    pub fn follow(&mut self, alloc: Global, era: u32, event: &Event) -> Result<(), Memory>
        requires { self.old.marks.era ≡ era }
        ensures ok { (h : List Happening) → is_open h ≡ true → IsKeptUp h self.old
            → OnOk result (IsKeptUp (Happened event.now ∷ h) self.new) }
        ensures err { (h : List Happening) → IsKeptUp h self.old
            → OnErr result (IsKeptUp h self.new) }
    {
        if is_of_metadata(event) {
            self.follow_metadata(alloc, era, event)
        } else {
            self.follow_origin(alloc, event)
        }
    }

    /// Follows a crash.
    pub fn crash(&mut self)
        ensures { (h : List Happening) (images : Images) → IsKeptUp h self.old
            → IsKeptUp (Crashed images ∷ h) self.new }
    {
        self.past.clear();
    }
}
