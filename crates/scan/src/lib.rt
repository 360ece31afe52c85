// Decimal numbers in a text, read byte by byte: with blanks, newlines and comments between them, or in the lines of a delay list.
// The contracts cite `specs/Scan.antt`.
#![tactic(auto)]

ghost use Rattle.std.specs.Prelude.{◌≡◌, ◌+◌, ◌≤◌, ◌<◌, length, get_or};
ghost use Rattle.scan.specs.Scan.{text_bytes, max_numbers, is_blank, start, failed, with_digit, is_second, outside, number_ended};
ghost use Rattle.scan.specs.Scan.{need_line, needs_then, line_fault, line_ended};
ghost use Rattle.scan.specs.Scan.{step_in_line, step, end_fault, finished, kept_in, next_place, place_of, stops};
ghost use Rattle.scan.specs.Scan.{faulty_at, line_in, line_of, mark_size, StateIn, PlaceIn, ScannedTo, GoesTo, TextAs, ScanAs};

use timing::{MAX_PAIRS, MAX_REGISTERS};

// The most numbers that a text may hold: the count of registers, two for each register, and four for each pair.
pub const MAX_NUMBERS: usize = 4 * MAX_PAIRS + 2 * (MAX_REGISTERS as usize) + 1;

// The largest of them: 32 bits.
const MAX_VALUE: u64 = 4_294_967_295;

// The longest text.
pub const TEXT_BYTES: usize = 131_072;

// What can be wrong with a text.
#[derive(Clone, Copy, Debug, PartialEq, Eq)]
pub enum TextFault {
    // neither a digit nor a blank nor the start of a comment
    BadByte,
    // a number of more than 32 bits
    LargeNumber,
    // not one number in the first line of a list, or two
    BadFirstLine,
    // neither the two needs of a register, before the pairs, nor the four numbers of a pair in a later one
    BadLine,
    TooManyNumbers,
    NoNumber,
    TooLong,
    // not as many pairs as the first line says
    OtherPairs,
}

// How far the reading of a text has come.
#[derive(Clone, Copy)]
pub struct State {
    // whether the lines are those of a delay list
    pub lined: bool,
    // the numbers that stand in the lines before this one
    pub first: usize,
    // how many of them are needs
    pub needs: usize,
    // the numbers that have ended
    pub count: usize,
    // 0, or how many there are beside the needs by the count of pairs in the first line
    pub promised: usize,
    // whether a number has begun, and its value so far
    pub inside: bool,
    pub value: u32,
    // whether the rest of the line is a comment
    pub comment: bool,
    pub fault: Option<TextFault>,
}

// Where a byte stands in a text, line and column counted from 1.
#[derive(Clone, Copy, Debug, PartialEq, Eq)]
pub struct Place {
    pub line: usize,
    pub column: usize,
}

// The count of a text's numbers and how many of them are needs, which stand right after the first number.
#[derive(Clone, Copy, Debug, PartialEq, Eq)]
pub struct Numbers {
    pub count: usize,
    pub needs: usize,
}

// What is wrong with a text, where, and the byte there; none at the end of the text.
#[derive(Clone, Copy, Debug, PartialEq, Eq)]
pub struct FaultAt {
    pub fault: TextFault,
    pub place: Place,
    pub byte: Option<u8>,
}

fn begin(lined: bool) -> State
    ensures { result ≡ start lined }
{
    State {
        lined,
        first: 0,
        needs: 0,
        count: 0,
        promised: 0,
        inside: false,
        value: 0,
        comment: false,
        fault: None,
    }
}

// A space, a comma, a tab or a carriage return.
#[tactic(auto, unfolding(crate::specs::Scan::is_blank))]
fn blank(byte: u8) -> bool
    ensures { result ≡ is_blank byte }
{
    matches!(byte, b' ' | b',' | b'\t' | b'\r')
}

impl State {
    fn fail(self, fault: TextFault) -> State
        ensures { result ≡ failed self fault }
    {
        State {
            fault: Some(fault),
            ..self
        }
    }

    // A digit more.
    #[inline(always)]
    fn digit(self, d: u32) -> State
        requires { d < 10 }
        ensures { result ≡ with_digit self d }
    {
        let value = 10 * (self.value as u64) + d as u64;
        if value > MAX_VALUE {
            return self.fail(TextFault::LargeNumber);
        }
        State {
            inside: true,
            value: value as u32,
            fault: None,
            ..self
        }
    }

    // Whether a number that ends is the count of pairs in the first line.
    #[tactic(auto, unfolding(crate::specs::Scan::is_second))]
    fn is_second(self) -> bool
        ensures { result ≡ is_second self }
    {
        matches!(
            self,
            State {
                lined: true,
                first: 0,
                count: 1,
                promised: 0,
                ..
            }
        )
    }

    // No number has begun; `count` have ended, and `promised` are promised.
    fn outside(self, count: usize, promised: usize) -> State
        ensures { result ≡ outside self count promised }
    {
        State {
            count,
            promised,
            inside: false,
            value: 0,
            fault: None,
            ..self
        }
    }

    // The end of a number, if one has begun.
    #[inline(always)]
    fn close(self) -> State
        ensures { result ≡ number_ended self }
    {
        if !self.inside {
            return self;
        }
        if self.is_second() {
            return self.outside(self.count, 4 * (self.value as usize) + 1);
        }
        if self.count >= MAX_NUMBERS {
            return self.fail(TextFault::TooManyNumbers);
        }
        self.outside(self.count + 1, self.promised)
    }

    // Whether the line holds the needs of a register: before it stand only the first line and lines of needs.
    fn need_line(self) -> bool
        requires { StateIn self }
        ensures { result ≡ need_line self.lined self.first self.needs self.count }
    {
        if !self.lined {
            return false;
        }
        if self.first != self.needs + 1 {
            return false;
        }
        self.count == self.first + 2
    }

    // How many numbers are needs after the line.
    fn needs_then(self) -> usize
        requires { StateIn self }
        ensures { result ≡ needs_then self.lined self.first self.needs self.count }
    {
        if self.need_line() {
            self.needs + 2
        } else {
            self.needs
        }
    }

    // What is wrong with the line.
    fn line_fault(self) -> Option<TextFault>
        requires { StateIn self }
        ensures { result ≡ line_fault self.lined self.first self.needs self.count }
    {
        if !self.lined {
            return None;
        }
        if self.count == self.first {
            return None;
        }
        if self.first == 0 {
            if self.count == 1 {
                return None;
            }
            return Some(TextFault::BadFirstLine);
        }
        if self.count == self.first + 4 {
            return None;
        }
        if self.need_line() {
            return None;
        }
        Some(TextFault::BadLine)
    }

    // The end of a line.
    #[inline(always)]
    fn end_line(self) -> State
        requires { StateIn self }
        ensures { result ≡ line_ended self }
    {
        if self.fault.is_some() {
            return self;
        }
        if let Some(fault) = self.line_fault() {
            return self.fail(fault);
        }
        State {
            first: self.count,
            needs: self.needs_then(),
            comment: false,
            fault: None,
            ..self
        }
    }

    // A byte in a line, outside comments.
    #[inline(always)]
    fn step_in_line(self, byte: u8) -> State
        requires { StateIn self }
        ensures { result ≡ step_in_line self byte }
    {
        if blank(byte) {
            return self.close();
        }
        if byte == b'#' {
            return State {
                comment: true,
                ..self.close()
            };
        }
        if byte < b'0' {
            return self.fail(TextFault::BadByte);
        }
        if byte > b'9' {
            return self.fail(TextFault::BadByte);
        }
        self.digit((byte - b'0') as u32)
    }

    // A byte more. It is put into its callers, with all that it calls, so that the state is not stored anew for each byte.
    #[inline(always)]
    fn step(self, byte: u8) -> State
        requires { StateIn self }
        ensures { result ≡ step self byte }
    {
        if self.fault.is_some() {
            return self;
        }
        if byte == b'\n' {
            return self.close().end_line();
        }
        if self.comment {
            return self;
        }
        self.step_in_line(byte)
    }

    // What is wrong with the end of the text.
    fn end_fault(self) -> Option<TextFault>
        requires { StateIn self }
        ensures { result ≡ end_fault self }
    {
        if self.count == 0 {
            return Some(TextFault::NoNumber);
        }
        if self.promised == 0 {
            return None;
        }
        if self.count - self.needs == self.promised {
            return None;
        }
        Some(TextFault::OtherPairs)
    }

    // The end of the text, which ends its last number and its last line.
    fn finish(self) -> State
        requires { StateIn self }
        ensures { result ≡ finished self }
    {
        if self.fault.is_some() {
            return self;
        }
        let last = self.close().end_line();
        if last.fault.is_some() {
            return last;
        }
        State {
            fault: last.end_fault(),
            ..last
        }
    }
}

// The number that ended on the way from one state to the next, if any, put in its place.
fn keep(numbers: &mut [u32], was: State, next: State)
    requires { next.count ≤ length numbers.old }
    ensures { numbers.new ≡ kept_in was next numbers.old }
{
    let at = was.count;
    if at < next.count {
        numbers[at] = was.value;
    }
}

// A byte more, with the number that it ends put in its place.
fn turn(state: State, byte: u8, numbers: &mut [u32]) -> State
    requires { StateIn state × (max_numbers ≤ length numbers.old) }
    ensures { (result ≡ step state byte) × (numbers.new ≡ kept_in state result numbers.old) }
{
    let next = state.step(byte);
    keep(numbers, state, next);
    next
}

// The end of the text, with the number that it ends put in its place.
fn turn_end(state: State, numbers: &mut [u32]) -> State
    requires { StateIn state × (max_numbers ≤ length numbers.old) }
    ensures { (result ≡ finished state) × (numbers.new ≡ kept_in state result numbers.old) }
{
    let next = state.finish();
    keep(numbers, state, next);
    next
}

// All bytes of a text, with the numbers that they end in the first places of `numbers`.
fn read_bytes(bytes: &[u8], lined: bool, numbers: &mut [u32]) -> State
    requires { max_numbers ≤ length numbers.old }
    ensures { ScannedTo lined bytes.now numbers.old numbers.new result }
{
    let mut state = begin(lined);
    for byte in bytes {
        state = turn(state, *byte, numbers);
    }
    state
}

// The place after a byte.
fn next_place(place: Place, byte: u8) -> Place
    requires { PlaceIn place }
    ensures { result ≡ next_place place byte }
{
    if byte == b'\n' {
        return Place {
            line: place.line + 1,
            column: 1,
        };
    }
    Place {
        line: place.line,
        column: place.column + 1,
    }
}

// The place of byte `at`.
fn place_of(text: &[u8], at: usize) -> Place
    requires { (at ≤ length text.now) × (at ≤ text_bytes) }
    ensures { result ≡ place_of text.now at }
{
    let mut place = Place { line: 1, column: 1 };
    for i in 0..at {
        place = next_place(place, text[i]);
    }
    place
}

// Whether reading stops: something is wrong, or enough numbers have ended.
fn stops(enough: usize, state: State) -> bool
    ensures { result ≡ stops enough state }
{
    state.fault.is_some() || state.count >= enough
}

// The index of the byte with which reading stops.
fn goes_to(text: &[u8], lined: bool, enough: usize) -> usize
    ensures { GoesTo enough lined text.now result }
{
    let mut state = begin(lined);
    for (i, byte) in text.iter().enumerate() {
        state = state.step(*byte);
        if stops(enough, state) {
            return i;
        }
    }
    text.len()
}

// What is wrong, and where: at byte `at`, or at the end.
fn fault_at(text: &[u8], fault: TextFault, at: usize) -> FaultAt
    requires { (at ≤ length text.now) × (at ≤ text_bytes) }
    ensures { result ≡ faulty_at fault text.now at }
{
    FaultAt {
        fault,
        place: place_of(text, at),
        byte: text.get(at).copied(),
    }
}

// The numbers of a text that is not too long and has no mark, or none any more.
fn scan_text(text: &[u8], lined: bool, numbers: &mut [u32]) -> Result<Numbers, FaultAt>
    requires { (length text.now ≤ text_bytes) × (max_numbers ≤ length numbers.old) }
    ensures { TextAs lined text.now numbers.old numbers.new result }
{
    let walked = read_bytes(text, lined, numbers);
    let last = turn_end(walked, numbers);
    if let Some(fault) = last.fault {
        let at = goes_to(text, lined, MAX_NUMBERS + 1);
        return Err(fault_at(text, fault, at));
    }
    Ok(Numbers {
        count: last.count,
        needs: last.needs,
    })
}

// The bytes of a byte order mark at the start: 3, or 0 if there is none.
#[tactic(auto, using(crate::proofs::ScanLaws::mark_few), unfolding(crate::specs::Scan::mark_size))]
fn mark_size(bytes: &[u8]) -> usize
    ensures { result ≡ mark_size bytes.now }
{
    match bytes {
        [239, 187, 191, ..] => 3,
        _ => 0,
    }
}

// The line of a list in which `enough` numbers have ended.
fn line_in(text: &[u8], enough: usize) -> usize
    requires { length text.now ≤ text_bytes }
    ensures { result ≡ line_in enough text.now }
{
    let at = goes_to(text, true, enough);
    place_of(text, at).line
}

// The line of the text of a list in which number k ends, counted from 1.
pub fn line_of(bytes: &[u8], k: usize) -> usize
    requires { length bytes.now ≤ text_bytes }
    ensures { result ≡ line_of k bytes.now }
{
    let from = mark_size(bytes);
    line_in(&bytes[from..], k)
}

// The numbers of a text, in the first places of `numbers`; later places keep their contents. Their count and that of the needs are returned.
// Of a faulty text the numbers before the fault are stored, and what is wrong and where is returned; a text that is too long is at fault at
// the first byte too many.
pub fn scan(bytes: &[u8], lined: bool, numbers: &mut [u32; MAX_NUMBERS]) -> Result<Numbers, FaultAt>
    ensures { ScanAs lined bytes.now numbers.old numbers.new result }
{
    if bytes.len() > TEXT_BYTES {
        return Err(fault_at(bytes, TextFault::TooLong, TEXT_BYTES));
    }
    let from = mark_size(bytes);
    scan_text(&bytes[from..], lined, numbers)
}
