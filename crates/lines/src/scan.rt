//! What any bytes come to, taken for a row: whether they are whole lines, and how many.
ghost use Rattle.std.specs.Prelude.{◌≡◌, ℕ, ◌<◌, ◌≤◌, ◌^◌, ◌+◌, ◌↔◌, IsTrue, [], length, false};
ghost use Rattle.lines.specs.Rows.{Part, row, whole, with_number, with_byte, at_zero, IsBetween};
ghost use Rattle.lines.specs.Scanning.{IsScanOf, IsSmall};

use crate::reader::with_bits;
use crate::section::Section;

/// What the bytes so far come to.
#[derive(Clone, Copy)]
pub(crate) struct Scan {
    // how many lines are whole
    pub(crate) lines: usize,
    // how long the lists of the line are that is begun
    literals: usize,
    hints: usize,
    forgets: usize,
    // and in which of them it is
    section: Section,
    // the value of the number that is begun, so far
    value: u64,
    // whether one is begun
    begun: bool,
    // the most literals that a whole line has, and the length of the longest list of numbers
    pub(crate) most_literals: usize,
    pub(crate) most_numbers: usize,
}

impl Scan {
    /// Behind no bytes.
    fn none() -> Scan
        ensures scan { IsScanOf result (row []) }
        ensures small { IsSmall 0 result }
    {
        Scan {
            lines: 0,
            literals: 0,
            hints: 0,
            forgets: 0,
            section: Section::Literals,
            value: 0,
            begun: false,
            most_literals: 0,
            most_numbers: 0,
        }
    }

    /// Goes behind the end of a list.
    fn end_list(&mut self)
        requires { IsSmall (2 ^ 63) self.old }
        ensures scan { (p : Part) → IsBetween p → IsScanOf self.old p → IsScanOf self.new (at_zero p.section p) }
        ensures small { (n : ℕ) → IsSmall n self.old → IsSmall (n + 1) self.new }
    {
        match self.section {
            Section::Literals => self.section = Section::Hints,
            Section::Hints => self.section = Section::Forgotten,
            Section::Forgotten => {
                self.lines += 1;
                self.most_literals = self.most_literals.max(self.literals);
                self.most_numbers = self.most_numbers.max(self.hints).max(self.forgets);
                self.literals = 0;
                self.hints = 0;
                self.forgets = 0;
                self.section = Section::Literals;
            }
        }
    }

    /// Goes behind one number more, where none is begun.
    fn pass_number(&mut self, number: u64)
        requires { IsSmall (2 ^ 63) self.old }
        ensures scan { (p : Part) → IsBetween p → IsScanOf self.old p → IsScanOf self.new (with_number p number) }
        ensures small { (n : ℕ) → IsSmall n self.old → IsSmall (n + 1) self.new }
    {
        if number == 0 {
            self.end_list();
            return;
        }
        match self.section {
            Section::Literals => self.literals += 1,
            Section::Hints => self.hints += 1,
            Section::Forgotten => self.forgets += 1,
        }
    }

    /// Goes behind one byte more.
    // Where it stands: a scan that was handed on and came back was copied with its padding at each
    // byte, which took six times as long.
    fn pass_byte(&mut self, byte: u8)
        requires { IsSmall (2 ^ 63) self.old }
        ensures scan { (p : Part) → IsScanOf self.old p → IsScanOf self.new (with_byte p byte) }
        ensures small { (n : ℕ) → IsSmall n self.old → IsSmall (n + 1) self.new }
    {
        if byte < 128 {
            let number = with_bits(self.value, byte);
            self.value = 0;
            self.begun = false;
            self.pass_number(number);
        } else {
            self.value = with_bits(self.value, byte - 128);
            self.begun = true;
        }
    }

    /// Behind all the bytes. It takes no memory.
    pub(crate) fn of(bytes: &[u8]) -> Scan
        ensures { IsScanOf result (row bytes.now) }
    {
        let mut scan = Scan::none();
        for byte in bytes {
            scan.pass_byte(*byte);
        }
        scan
    }

    /// Whether they are whole lines.
    pub(crate) fn is_whole(&self) -> bool
        ensures { (p : Part) → IsScanOf self.now p → (IsTrue result ↔ (p ≡ whole p.lines)) }
    {
        self.section == Section::Literals && self.literals == 0 && !self.begun
    }
}
