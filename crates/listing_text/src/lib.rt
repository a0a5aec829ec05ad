// The listing of what the rewriter answers on two files: number, place, state and the output's program bytes.
#![tactic(auto)]

ghost use Rattle.std.specs.Prelude.{◌≤◌, ◌<◌, ◌+◌, min, ◌≡◌, length, take};
ghost use Rattle.machine.specs.Limits.{limit_most};
ghost use Rattle.listing_text.specs.Adds.{Adds};
ghost use Rattle.listing_text.specs.Grown.{Grown};
ghost use Rattle.listing_text.specs.Text.{hex_digit, hex_of, letter_of, sign_of, hook_line, hook_lines, beds_of, attachment_of, carrier_line, carrier_lines, racking_line, bytes_of, program_line, state_of, shown_of, listing_of};
ghost use Rattle.rewrite.specs.Calls.{Below};
ghost use Rattle.rewrite.specs.Rewrite.{rewrite_of};
ghost use Rattle.listing_text.specs.Listed.{listed_of, ListsRead};

mod text;

use machine::{Carrier, Racking, State};
use rewrite::{rewrite, writes};
use run::Answer;
use std::fs::{File, Files};
use std::io::Read;
use text::Text;

// The bed of a needle: f or b.
#[tactic(auto, unfolding(crate::specs::Text::letter_of))]
fn letter(bed: u16) -> u8
    ensures { result ≡ letter_of bed }
{
    if bed == 0 { b'f' } else { b'b' }
}

// The side of an attachment: - for left, + for right.
#[tactic(auto, unfolding(crate::specs::Text::sign_of))]
fn sign(side: u8) -> u8
    ensures { result ≡ sign_of side }
{
    if side == 1 { b'-' } else { b'+' }
}

// A hook with its loops, as in f 10 1, if it has any.
fn put_hook(text: &mut Text, bed: u16, needle: usize, loops: u8)
    ensures { Adds text.old (hook_line bed needle loops) text.new }
{
    if loops != 0 {
        text.put_all(&[letter(bed), b' ']);
        text.put_number(needle);
        text.put(b' ');
        text.put_number(loops);
        text.put(b'\n');
    }
}

// The hooks of a bed, upward.
fn put_hooks(text: &mut Text, bed: u16, loops: &[u8])
    ensures { Adds text.old (hook_lines bed loops.now) text.new }
{
    for (needle, on_hook) in loops.iter().enumerate() {
        put_hook(text, bed, needle, *on_hook);
    }
}

// The hooks of both beds, front first.
fn put_beds(text: &mut Text, loops: &[u8; State::HOOKS])
    ensures { Adds text.old (beds_of loops.now) text.new }
{
    put_hooks(text, 0, &loops[..State::NEEDLES]);
    put_hooks(text, 1, &loops[State::NEEDLES..]);
}

// An attachment, as in f 10 +, or none.
fn put_attachment(text: &mut Text, c: Carrier)
    ensures { Adds text.old (attachment_of c) text.new }
{
    if c.side == 0 {
        return text.put_all(b" none\n");
    }
    let n = c.needle;
    text.put_all(&[b' ', letter(n.0), b' ']);
    text.put_number(n.1);
    text.put_all(&[b' ', sign(c.side), b'\n']);
}

// A carrier, as in c 3 11 f 10 + and c 3 10 none, if it is active.
fn put_carrier(text: &mut Text, number: usize, c: Carrier)
    ensures { Adds text.old (carrier_line number c) text.new }
{
    if c.active != 0 {
        let slot = c.slot;
        text.put_all(b"c ");
        text.put_number(number);
        text.put(b' ');
        text.put_number(slot.0);
        put_attachment(text, c);
    }
}

// Carriers 1 to 10.
fn put_carriers(text: &mut Text, carriers: &[Carrier])
    ensures { Adds text.old (carrier_lines carriers.now) text.new }
{
    for (k, c) in carriers.iter().enumerate() {
        put_carrier(text, k + 1, *c);
    }
}

fn put_racking(text: &mut Text, r: Racking)
    ensures { Adds text.old (racking_line r.0) text.new }
{
    text.put_all(b"r ");
    text.put_number(r.0);
    text.put(b'\n');
}

fn put_state(text: &mut Text, state: &State)
    ensures { Adds text.old (state_of state.now) text.new }
{
    put_racking(text, state.racking);
    put_beds(text, &state.loops);
    put_carriers(text, &state.carriers);
}

// A hexadecimal digit, lower case.
fn hex_digit(d: u8) -> u8
    requires { d < 16 }
    ensures { result ≡ hex_digit d }
{
    if d < 10 { b'0' + d } else { b'a' - 10 + d }
}

fn put_byte(text: &mut Text, b: u8)
    ensures { Adds text.old (hex_of b) text.new }
{
    text.put_all(&[hex_digit(b / 16), hex_digit(b % 16)]);
}

fn put_bytes(text: &mut Text, bytes: &[u8])
    ensures { Adds text.old (bytes_of bytes.now) text.new }
{
    for b in bytes {
        put_byte(text, *b);
    }
}

// The program's bytes, or p alone.
fn put_program(text: &mut Text, bytes: &[u8])
    ensures { Adds text.old (program_line bytes.now) text.new }
{
    if bytes.is_empty() {
        return text.put_all(b"p\n");
    }
    text.put_all(b"p ");
    put_bytes(text, bytes);
    text.put(b'\n');
}

// The listing of an answer and the output's program bytes, at the front of the text; its length.
pub fn listing(a: Answer, bytes: &[u8], text: &mut [u8]) -> usize
    ensures { Grown text.old 0 (listing_of a bytes.now) text.new result }
{
    let mut out = Text::new(text);
    out.put_number(a.number);
    out.put(b' ');
    out.put_number(a.place);
    out.put_all(&[b' ', b'0' + u8::from(a.complete), b'\n']);
    put_state(&mut out, &a.state);
    put_program(&mut out, bytes);
    out.end()
}

// How many of the output's bytes are listed: the program's after a number that writes, else none.
#[tactic(auto, unfolding(crate::specs::Text::shown_of))]
fn shown(number: u8, length: usize, room: usize) -> usize
    ensures { result ≡ min (shown_of number length) room }
{
    if writes(number) { length.min(room) } else { 0 }
}

// The listing of a program and a log at a hook limit, at the front of the text; the rewriter is lent the output and the
// work area.
pub fn list(
    limit: u8,
    program: &[u8],
    log: &[u8],
    output: &mut [u8],
    work: &mut [u16],
    text: &mut [u8],
) -> usize
    ensures grown { Grown text.old 0 (listed_of limit program.now log.now output.old work.old) text.new result }
    ensures output_after { (output.new ≡ (rewrite_of limit program.now log.now output.old work.old).output) × (work.new ≡ (rewrite_of limit program.now log.now output.old work.old).work) }
{
    let a = rewrite(limit, program, log, output, work);
    let n = shown(a.number, program.len(), output.len());
    listing(a, &output[..n], text)
}

// Room for the longest file and one byte more, by which a longer one is known.
fn room() -> [u8; State::PROGRAM_MOST + 1]
    ensures { 32769 ≡ length result }
{
    [0u8; State::PROGRAM_MOST + 1]
}

// Reads until buf is full, the file ends or a read fails, and answers how many bytes it put at the front of buf. (A `while`: the
// library's `read_exact` says nothing after an error, and `read_to_end` wants a heap.)
fn read_full(file: &mut impl Read, buf: &mut [u8]) -> usize
    ensures { (result ≤ length buf.new) × (result ≡ length (take result buf.new)) }
{
    let mut done = 0;
    while done < buf.len() {
        let n = file.read(&mut buf[done..]).unwrap_or(0);
        if n == 0 {
            break;
        }
        done += n;
    }
    done
}

// Reads the front of a file into buf: nothing where it cannot be opened, as where its path is not UTF-8.
fn load<'a>(files: &impl Files, path: &[u8], buf: &'a mut [u8]) -> &'a [u8]
    ensures upper_bound { length result.now ≤ length buf.old }
    ensures below { Below 256 result.now }
{
    let Ok(name) = str::from_utf8(path) else {
        return &[];
    };
    let Ok(mut file) = File::open(files, name) else {
        return &[];
    };
    let n = read_full(&mut file, buf);
    &buf[..n]
}

// No listing has more bytes.
pub const LONGEST: usize = 88307;

// Puts the listing of the program and the log in two files at the front of the text and answers its length. A text of
// LONGEST bytes holds it whole.
pub fn list_files_at(
    files: &impl Files,
    limit: u8,
    program_path: &[u8],
    log_path: &[u8],
    text: &mut [u8],
) -> usize
    ensures { ListsRead limit text.old text.new result }
{
    let mut program = room();
    let program = load(files, program_path, &mut program);
    let mut log = room();
    let log = load(files, log_path, &mut log);
    let mut output = [0u8; State::PROGRAM_MOST];
    let mut work = [0u16; State::PROGRAM_MOST / 2];
    list(limit, program, log, &mut output, &mut work, text)
}

// The same at limit 8, at which the listing program runs.
pub fn list_files(
    files: &impl Files,
    program_path: &[u8],
    log_path: &[u8],
    text: &mut [u8],
) -> usize
    ensures { ListsRead limit_most text.old text.new result }
{
    list_files_at(files, State::LIMIT_MOST, program_path, log_path, text)
}
