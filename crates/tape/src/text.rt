// The lines that a tape's run prints, put into a lent buffer one byte after the other; what lies beyond its end is lost.
#![tactic(auto, using(crate::proofs::Texts::text_steps), unfolding(crate::specs::Text::fields_text, crate::specs::Text::update_text, crate::specs::Text::each_text, crate::specs::Text::updates_text, crate::specs::Text::line_text))]

ghost use Rattle.std.specs.Prelude.{◌≡◌, [], ◌∷◌, length};
ghost use Rattle.tape.specs.Text.{lines_in, written, ended, added, decimal, marked, header, fields_text, update_text, each_text, updates_text, line_text};

use config::config::Priority;
use control::budget_allocator::WriterInfo;
use itoa::Buffer;

const SPACE: u8 = 32;

const COLON: u8 = 58;

const LINE_END: u8 = 10;

// The glyph of digit 0.
const ZERO: u8 = 48;

// What a line tells after the answer number.
#[derive(Clone, Copy, Debug, PartialEq, Eq)]
pub enum Fields {
    Nothing,
    Flag(bool),
    Unchanged,
    Sent {
        class: Priority,
        sequence: u64,
        length: u64,
    },
    Empty,
    Wait(u64),
}

// A text put into a buffer from a place on, byte after byte, as far as there is room. Told is the place behind it.
fn put_at(bytes: &mut [u8], at: usize, text: &[u8]) -> usize
    ensures bytes_after { bytes.new ≡ written bytes.old at text.now }
    ensures place_after { result ≡ ended (length bytes.old) at (length text.now) }
{
    let mut end = at;
    for byte in text {
        if end < bytes.len() {
            bytes[end] = *byte;
            end += 1;
        }
    }
    end
}

// A lent buffer, and how many of its bytes are lines.
#[derive(Drop)]
pub struct Lines<'a> {
    bytes: &'a mut [u8],
    end: usize,
}

impl<'a> Lines<'a> {
    // No lines yet in a buffer.
    pub fn new(bytes: &'a mut [u8]) -> Lines<'a>
        ensures { result ≡ lines_in bytes.entry }
    {
        Lines { bytes, end: 0 }
    }

    // How many bytes the lines have.
    pub fn length(&self) -> usize
        ensures { result ≡ self.now.end }
    {
        self.end
    }

    // A byte more; where there is no room nothing is written.
    // Stays: [5] each of these clauses names another text; that it stands behind the lines before is what `added` says.
    #[inline(always)]
    #[tactic(auto, using(crate::proofs::Texts::put_steps))]
    fn put_byte(&mut self, byte: u8)
        ensures { self.new ≡ added self.old (byte ∷ []) }
    {
        if self.end < self.bytes.len() {
            self.bytes[self.end] = byte;
            self.end += 1;
        }
    }

    // A text, byte after byte: the end is read once and written once.
    #[inline(always)]
    #[tactic(auto, unfolding(crate::specs::Text::added))]
    fn put_text(&mut self, text: &[u8])
        ensures { self.new ≡ added self.old text.now }
    {
        self.end = put_at(self.bytes, self.end, text);
    }

    // A number in decimal; one of a single digit, as answers and most fields are, needs no digits made.
    #[inline(always)]
    #[tactic(auto, using(crate::proofs::Texts::number_steps))]
    fn put_number(&mut self, n: u64)
        ensures { self.new ≡ added self.old (decimal n) }
    {
        if n < 10 {
            return self.put_byte(ZERO + n as u8);
        }
        let mut digits = Buffer::new();
        self.put_text(digits.format(n).as_bytes());
    }

    // A number with a mark before it.
    #[inline(always)]
    fn put_marked(&mut self, mark: u8, n: u64)
        ensures { self.new ≡ added self.old (marked mark n) }
    {
        self.put_byte(mark);
        self.put_number(n);
    }

    // The line before all others.
    pub fn put_header(&mut self)
        ensures { self.new ≡ added self.old header }
    {
        self.put_text(b"word answer fields\n");
    }

    // A line's fields, each with a space before it.
    #[inline(always)]
    fn put_fields(&mut self, fields: Fields)
        ensures { self.new ≡ added self.old (fields_text fields) }
    {
        match fields {
            Fields::Nothing => {}
            Fields::Flag(flag) => self.put_marked(SPACE, u64::from(flag)),
            Fields::Unchanged => self.put_text(b" none"),
            Fields::Sent {
                class,
                sequence,
                length,
            } => {
                self.put_text(b" sent");
                self.put_marked(SPACE, u64::from(u8::from(class)));
                self.put_marked(SPACE, sequence);
                self.put_marked(SPACE, length);
            }
            Fields::Empty => self.put_text(b" empty"),
            Fields::Wait(nanoseconds) => {
                self.put_text(b" wait");
                self.put_marked(SPACE, nanoseconds);
            }
        }
    }

    // A writer's id, its budget before, and its new one.
    fn put_update(&mut self, writer: &WriterInfo)
        ensures { self.new ≡ added self.old (update_text writer.now) }
    {
        self.put_marked(SPACE, writer.id);
        self.put_marked(COLON, u64::from(writer.previous_bps));
        self.put_marked(COLON, u64::from(writer.budget_bps));
    }

    // Each writer's update.
    fn put_each(&mut self, writers: &[WriterInfo])
        ensures { self.new ≡ added self.old (each_text writers.now) }
    {
        for writer in writers {
            self.put_update(writer);
        }
    }

    // The line of a word: its index, its answer and its fields.
    // Stays: [1] what is printed is the number, which a refusal, a fate and an accepted call each give (`Numbered`).
    #[inline(always)]
    #[tactic(auto, unfolding(crate::specs::Text::added))]
    pub fn put_line(&mut self, index: usize, answer: u8, fields: Fields)
        ensures { self.new ≡ added self.old (line_text index answer (fields_text fields)) }
    {
        self.end = line_at(self.bytes, self.end, index, answer, fields);
    }

    // The line of an accepted word that shared the rate out anew: how many writers there are, and each one's update.
    pub fn put_updates(&mut self, index: usize, writers: &[WriterInfo])
        ensures { self.new ≡ added self.old (line_text index 0 (updates_text writers.now)) }
    {
        self.put_number(index as u64);
        self.put_marked(SPACE, 0);
        self.put_marked(SPACE, writers.len() as u64);
        self.put_each(writers);
        self.put_byte(LINE_END);
    }
}

// The line of a word put from a place on. Told is the place behind it: it is kept beside the buffer, and so read once and written once.
#[inline(always)]
#[tactic(auto, using(crate::proofs::Texts::line_steps), unfolding(crate::specs::Text::line_text))]
fn line_at(bytes: &mut [u8], at: usize, index: usize, answer: u8, fields: Fields) -> usize
    ensures bytes_after { bytes.new ≡ written bytes.old at (line_text index answer (fields_text fields)) }
    ensures place_after { result ≡ ended (length bytes.old) at (length (line_text index answer (fields_text fields))) }
{
    let mut line = Lines { bytes, end: at };
    line.put_number(index as u64);
    line.put_marked(SPACE, u64::from(answer));
    line.put_fields(fields);
    line.put_byte(LINE_END);
    line.end
}
