// The records of a sheet, each read from the input with its fields taken and judged one by one,
// and the faults of a reading in three layers.
#![tactic(auto)]

ghost use Rattle.std.specs.Prelude.{◌≡◌, ◌+◌, ◌<◌, ◌≤◌, length, is_ok, IfOk, OnOk};
ghost use Rattle.records.specs.Faults.{number_of, layer_of, index_of, offset_of};
ghost use Rattle.records.specs.Fields.{byte_at, u16_at, u32_at, part_at, shown_part, judged, are_flags, is_printable, all_printable};
ghost use Rattle.records.specs.Records.{head_at, state_at, move_at, end_at, record_at, shown_read};
ghost use Rattle.records.specs.declared.RecordFault.TheVariants.{Byte};
ghost use Rattle.records.specs.declared.SheetFault.TheVariants.{Record};

mod display;

// The marks that records begin with.
pub const HEAD_MARK: &[u8; 2] = b"SH";

pub const STATE_MARK: &[u8; 2] = b"ST";

pub const MOVE_MARK: &[u8; 2] = b"MV";

pub const END_MARK: &[u8; 2] = b"ZZ";

// The most states of a sheet, the most bytes of a state's name, and what labels lie below.
pub const STATES: u16 = 4096;

pub const NAME: u8 = 16;

pub const LABELS: u8 = 64;

// The bits that a state's flags may have.
const FLAGS: u8 = 0x0f;

// The input ends inside the mark or field at `offset`, of the record `index`.
#[derive(Clone, Copy, PartialEq, Eq, Debug)]
pub struct ByteFault {
    pub index: usize,
    pub offset: usize,
}

// A record that cannot be read: cut off, with no mark that may stand here, or with a field out of range.
#[derive(Clone, Copy, PartialEq, Eq, Debug)]
pub enum RecordFault {
    Byte(ByteFault),
    Mark { index: usize, offset: usize },
    Field { index: usize, offset: usize },
}

// Kept with record and offset in each case: callers and definitions match both by name.
// A sheet that cannot be read: a record that cannot, a move not above the last, a wrong number of moves,
// bytes after the end, or a table too short.
#[derive(Clone, Copy, PartialEq, Eq, Debug)]
pub enum SheetFault {
    Record(RecordFault),
    Order { index: usize, offset: usize },
    Count { index: usize, offset: usize },
    Excess { index: usize, offset: usize },
    Room { index: usize, offset: usize },
}

impl From<ByteFault> for RecordFault {
    ghost from_gives = { λ e r. r ≡ Byte e };

    fn from(e: ByteFault) -> RecordFault {
        RecordFault::Byte(e)
    }
}

impl From<RecordFault> for SheetFault {
    ghost from_gives = { λ e r. r ≡ Record e };

    fn from(e: RecordFault) -> SheetFault {
        SheetFault::Record(e)
    }
}

// The layer that a fault arises in.
#[derive(Clone, Copy, PartialEq, Eq, Debug)]
pub enum Layer {
    Byte,
    Record,
    Sheet,
}

impl SheetFault {
    // The number that the fault is known by.
    pub fn number(&self) -> u8
        ensures { result ≡ number_of self.now }
    {
        match self {
            SheetFault::Record(RecordFault::Byte(_)) => 2,
            SheetFault::Record(RecordFault::Mark { .. }) => 1,
            SheetFault::Record(RecordFault::Field { .. }) => 3,
            SheetFault::Order { .. } => 4,
            SheetFault::Count { .. } => 5,
            SheetFault::Excess { .. } => 6,
            SheetFault::Room { .. } => 7,
        }
    }

    pub fn layer(&self) -> Layer
        ensures { result ≡ layer_of self.now }
    {
        match self {
            SheetFault::Record(RecordFault::Byte(_)) => Layer::Byte,
            SheetFault::Record(_) => Layer::Record,
            _ => Layer::Sheet,
        }
    }

    // The record at fault, counted from 0, and where in the input the fault lies.
    fn place(&self) -> (usize, usize)
        ensures { result ≡ (index_of self.now, offset_of self.now) }
    {
        match *self {
            SheetFault::Record(RecordFault::Byte(ByteFault { index, offset }))
            | SheetFault::Record(RecordFault::Mark { index, offset })
            | SheetFault::Record(RecordFault::Field { index, offset })
            | SheetFault::Order { index, offset }
            | SheetFault::Count { index, offset }
            | SheetFault::Excess { index, offset }
            | SheetFault::Room { index, offset } => (index, offset),
        }
    }

    // The record at fault, counted from 0.
    pub fn index(&self) -> usize
        ensures { result ≡ index_of self.now }
    {
        self.place().0
    }

    // Where in the input the fault lies.
    pub fn offset(&self) -> usize
        ensures { result ≡ offset_of self.now }
    {
        self.place().1
    }
}

// A place in the input, where the mark or a field of the record `index` begins.
#[derive(Clone, Copy)]
struct Spot<'a> {
    bytes: &'a [u8],
    at: usize,
    index: usize,
}

impl<'a> Spot<'a> {
    // The place `by` bytes behind this one.
    fn further(self, by: usize) -> Spot<'a>
        requires { self.at + by ≤ length self.bytes.now }
        ensures { result ≡ record self.entry { at = self.entry.at + by } }
    {
        Spot {
            at: self.at + by,
            ..self
        }
    }

    // The `len` bytes here.
    fn part(self, len: usize) -> Result<&'a [u8], ByteFault>
        ensures { shown_part result (λ x. x.now) ≡ part_at len self.entry.bytes.now self.entry.at self.entry.index }
    {
        self.bytes
            .get(self.at..)
            .and_then(|rest| rest.get(..len))
            .ok_or(ByteFault {
                index: self.index,
                offset: self.at,
            })
    }

    // The byte here.
    fn byte(self) -> Result<u8, ByteFault>
        ensures { result ≡ byte_at self.entry.bytes.now self.entry.at self.entry.index }
    {
        Ok(self.part(1)?[0])
    }

    // The number in the two bytes here, low byte first.
    fn two_bytes(self) -> Result<u16, ByteFault>
        ensures { result ≡ u16_at self.entry.bytes.now self.entry.at self.entry.index }
    {
        let part = self.part(2)?;
        Ok(u16::from_le_bytes([part[0], part[1]]))
    }

    // The number in the four bytes here, low byte first.
    // Kept beside `two_bytes`: no trait of std has both types' `from_le_bytes`, and one of our own is longer, since an array of
    // a length by a parameter stands in no variant.
    fn four_bytes(self) -> Result<u32, ByteFault>
        ensures { result ≡ u32_at self.entry.bytes.now self.entry.at self.entry.index }
    {
        let part = self.part(4)?;
        Ok(u32::from_le_bytes([part[0], part[1], part[2], part[3]]))
    }

    // The field here: first taken, and then judged.
    fn field<T: Copy, R: FnOnce(Spot<'a>) -> Result<T, ByteFault>, F: FnOnce(T) -> bool>(
        self,
        take: R,
        good: F,
    ) -> Result<T, RecordFault>
        requires taken { R.pre take self }
        requires judged { F.IsAlwaysCallable good }
        ensures { (t : _) × R.post take self.entry t
            × (result ≡ judged (λ _. is_ok result) self.entry.at self.entry.index t)
            × IfOk t (λ v. F.post good v (is_ok result)) }
    {
        let v = take(self)?;
        if good(v) {
            Ok(v)
        } else {
            Err(RecordFault::Field {
                index: self.index,
                offset: self.at,
            })
        }
    }
}

// Whether only the four known flags are set.
// Kept as a mask: a rule of the project.
pub fn known_flags(flags: u8) -> bool
    ensures { result ≡ are_flags flags }
{
    flags & FLAGS == flags
}

// Whether a byte lies between hexadecimal 20 and 7E.
fn is_printable(b: u8) -> bool
    ensures { result ≡ is_printable b }
{
    matches!(b, 0x20..=0x7e)
}

// Whether a name has printable bytes only.
// Kept as a loop that judges each byte: a rule of the project.
pub fn printable(name: &[u8]) -> bool
    ensures { result ≡ all_printable name.now }
{
    for b in name {
        if !is_printable(*b) {
            return false;
        }
    }
    true
}

// A record that has been read. A state's name is part of the input, from `place` on.
#[derive(Drop)]
pub enum Record<'a> {
    Head {
        size: u16,
    },
    State {
        flags: u8,
        place: usize,
        name: &'a [u8],
    },
    Move {
        source: u16,
        label: u8,
        target: u16,
    },
    End {
        count: u32,
    },
}

// The records that may stand at a place: the first, a state's, or those after the states of a sheet of `size`.
// Kept: take_record is public and takes it, and which record was read is asked of it once more by its caller.
#[derive(Clone, Copy)]
pub enum Expect {
    Head,
    State,
    Tail { size: u16 },
}

// Kept in the contracts of four records: that the mark was taken. A type of its own for such a place is longer.

// The first record, whose mark is at `mark`: version and number of states.
fn head_record<'a>(mark: Spot<'a>) -> Result<(Record<'a>, usize), RecordFault>
    requires { mark.at + 2 ≤ length mark.bytes.now }
    ensures { shown_read result ≡ head_at mark.entry.bytes.now mark.entry.at mark.entry.index }
{
    let _version = mark.further(2).field(Spot::byte, |v| v == 1)?;
    let size = mark
        .further(3)
        .field(Spot::two_bytes, |v| (1..=STATES).contains(&v))?;
    Ok((Record::Head { size }, mark.at + 5))
}

// A state's record, whose mark is at `mark`: flags, length of the name, name.
fn state_record<'a>(mark: Spot<'a>) -> Result<(Record<'a>, usize), RecordFault>
    requires { mark.at + 2 ≤ length mark.bytes.now }
    ensures { shown_read result ≡ state_at mark.entry.bytes.now mark.entry.at mark.entry.index }
{
    let flags = mark.further(2).field(Spot::byte, known_flags)?;
    let len = mark.further(3).field(Spot::byte, |v| v <= NAME)?;
    let place = mark.at + 4;
    let name = mark
        .further(4)
        .field(|spot| spot.part(usize::from(len)), printable)?;
    Ok((
        Record::State { flags, place, name },
        place + usize::from(len),
    ))
}

// A move's record, whose mark is at `mark`: source, label, target.
fn move_record<'a>(mark: Spot<'a>, size: u16) -> Result<(Record<'a>, usize), RecordFault>
    requires { mark.at + 2 ≤ length mark.bytes.now }
    ensures { shown_read result ≡ move_at size mark.entry.bytes.now mark.entry.at mark.entry.index }
{
    let source = mark.further(2).field(Spot::two_bytes, |v| v < size)?;
    let label = mark.further(4).field(Spot::byte, |v| v < LABELS)?;
    let target = mark.further(5).field(Spot::two_bytes, |v| v < size)?;
    Ok((
        Record::Move {
            source,
            label,
            target,
        },
        mark.at + 7,
    ))
}

// The last record, whose mark is at `mark`: the number of moves, which may be any.
fn end_record<'a>(mark: Spot<'a>) -> Result<(Record<'a>, usize), RecordFault>
    requires { mark.at + 2 ≤ length mark.bytes.now }
    ensures { shown_read result ≡ end_at mark.entry.bytes.now mark.entry.at mark.entry.index }
{
    let count = mark.further(2).four_bytes()?;
    Ok((Record::End { count }, mark.at + 6))
}

// The record at `at`, if its mark may stand there, and where the next one begins.
pub fn take_record<'a>(
    bytes: &'a [u8],
    at: usize,
    index: usize,
    expect: Expect,
) -> Result<(Record<'a>, usize), RecordFault>
    ensures value { shown_read result ≡ record_at expect bytes.now at index }
    ensures inside { IfOk result (λ p. (at < p.1) × (p.1 ≤ length bytes.now)) }
{
    let spot = Spot { bytes, at, index };
    let mark = spot.part(2)?;
    match expect {
        Expect::Head if mark == HEAD_MARK.as_slice() => head_record(spot),
        Expect::State if mark == STATE_MARK.as_slice() => state_record(spot),
        Expect::Tail { size } if mark == MOVE_MARK.as_slice() => move_record(spot, size),
        Expect::Tail { .. } if mark == END_MARK.as_slice() => end_record(spot),
        _ => Err(RecordFault::Mark { index, offset: at }),
    }
}
