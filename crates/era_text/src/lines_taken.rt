//! Lines of a dump text are taken by what they say, or refused by their first kind.

ghost use Rattle.std.specs.Prelude.{◌≢◌, ◌≤◌, length};
ghost use Rattle.era_line.specs.Words.{words_of};
ghost use Rattle.era_text.specs.FirstLine.{Head};
ghost use Rattle.era_text.specs.Grammar.{array_words_step, line_step, run_words_step, section_step, set_words_step};
ghost use Rattle.era_text.specs.Taking.{Takes, head_of};
ghost use Rattle.era_text.specs.declared.section.Section.TheVariants.{Array as array_section, Current as current_section, Heading as heading_section, Set as set_section};

use crate::dump_head::DumpHead;
use crate::dump_kind::DumpKind;
use crate::line_fault::LineFault;
use crate::line_words::{number_of_word, three_words, two_words};
use crate::reading::Reading;
use crate::section::Section;
use std::alloc::Global;

impl Reading {
    // Takes the words of a run of a set.
    fn take_run_words(&mut self, head: &DumpHead, line: &[u8]) -> Result<(), LineFault>
        ensures { Takes (run_words_step (head_of head.now) self.old (words_of line.now)) self.new
            result }
    {
        let Some((first, last)) = two_words(line) else {
            return Err(LineFault::Refused(DumpKind::Unknown));
        };
        let first = number_of_word(first)?;
        let last = number_of_word(last)?;
        self.take_run(head, first, last)
    }

    // Takes the words of a line of an archived set.
    fn take_set_words(
        &mut self,
        alloc: Global,
        head: &DumpHead,
        line: &[u8],
    ) -> Result<(), LineFault>
        ensures { Takes (set_words_step (head_of head.now) self.old (words_of line.now)) self.new
            result }
    {
        let Some((name, era)) = two_words(line) else {
            return Err(LineFault::Refused(DumpKind::Unknown));
        };
        if name != b"set".as_slice() {
            return self.take_run_words(head, line);
        }
        let era = number_of_word(era)?;
        self.begin_next_set(alloc, head, era)
    }

    // Takes the words of a run of the array.
    fn take_era_run_words(&mut self, head: &DumpHead, line: &[u8]) -> Result<(), LineFault>
        requires { length (words_of line.now) ≢ 2 }
        ensures { Takes (array_words_step (head_of head.now) self.old (words_of line.now)) self.new
            result }
    {
        let Some((first, last, era)) = three_words(line) else {
            return Err(LineFault::Refused(DumpKind::Unknown));
        };
        let first = number_of_word(first)?;
        let last = number_of_word(last)?;
        let era = number_of_word(era)?;
        self.take_era_run(head, first, last, era)
    }

    // Takes the words of a line of the array.
    fn take_array_words(
        &mut self,
        alloc: Global,
        head: &DumpHead,
        line: &[u8],
    ) -> Result<(), LineFault>
        ensures { Takes (array_words_step (head_of head.now) self.old (words_of line.now)) self.new
            result }
    {
        let Some((name, era)) = two_words(line) else {
            return self.take_era_run_words(head, line);
        };
        if name != b"set".as_slice() {
            return Err(LineFault::Refused(DumpKind::Unknown));
        }
        let era = number_of_word(era)?;
        self.begin_first_set(alloc, head, era)
    }

    // Takes the line before the array.
    fn take_heading(&mut self, line: &[u8]) -> Result<(), LineFault>
        ensures { (head : Head) → Takes (section_step heading_section head self.old line.now)
            self.new result }
    {
        if line != b"array".as_slice() {
            return Err(LineFault::Refused(DumpKind::Unknown));
        }
        self.section = Section::Array;
        Ok(())
    }

    // Takes a line of the array.
    fn take_of_array(
        &mut self,
        alloc: Global,
        head: &DumpHead,
        line: &[u8],
    ) -> Result<(), LineFault>
        ensures { Takes (section_step array_section (head_of head.now) self.old line.now)
            self.new result }
    {
        if line != b"current".as_slice() {
            return self.take_array_words(alloc, head, line);
        }
        self.begin_current(alloc);
        Ok(())
    }

    // Takes a line of an archived set.
    fn take_of_set(&mut self, alloc: Global, head: &DumpHead, line: &[u8]) -> Result<(), LineFault>
        ensures { Takes (section_step set_section (head_of head.now) self.old line.now)
            self.new result }
    {
        if line != b"current".as_slice() {
            return self.take_set_words(alloc, head, line);
        }
        self.end_sets(alloc)?;
        Ok(())
    }

    // Takes a line of the current set.
    fn take_of_current(&mut self, head: &DumpHead, line: &[u8]) -> Result<(), LineFault>
        ensures { Takes (section_step current_section (head_of head.now) self.old line.now)
            self.new result }
    {
        if line != b"end".as_slice() {
            return self.take_run_words(head, line);
        }
        self.section = Section::Done;
        Ok(())
    }

    /// Takes a line behind the first one, which isn't too long, or refuses it.
    pub fn take_line(
        &mut self,
        alloc: Global,
        head: &DumpHead,
        line: &[u8],
    ) -> Result<(), LineFault>
        requires { length line.now ≤ 128 }
        ensures { Takes (line_step (head_of head.now) self.old line.now) self.new result }
    {
        match self.section {
            Section::Heading => self.take_heading(line),
            Section::Array => self.take_of_array(alloc, head, line),
            Section::Set => self.take_of_set(alloc, head, line),
            Section::Current => self.take_of_current(head, line),
            Section::Done => Err(LineFault::Refused(DumpKind::Trailing)),
        }
    }
}
