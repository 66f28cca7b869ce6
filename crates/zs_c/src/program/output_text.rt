//! The text of an output, written directly from the words that represent it.

ghost use Rattle.std.specs.Prelude.{◌≡◌, ◌+◌, ◌^◌, ◌<◌, [], ◌∷◌, length};
ghost use Rattle.std.specs.Fmt.{decimal};
ghost use Rattle.zs_term.specs.Output.{Output};
ghost use Rattle.zs_term.specs.OutputText.{output_text};
ghost use Rattle.zs_c.specs.Rooms.{written_at};
ghost use Rattle.zs_c.specs.View.{EndsPair, EndsSide, Listless, PlaceTells, PutsPair, PutsSide};

use crate::program::outputs::{Place, View, read_view};
use crate::room::put_after;
use itoa::Buffer;

// Writes the text of the output of a node's last step to `room` from byte `at` on, as far as it
// fits. Returns the index at which the text ends. A list has no text here.
#[cycle(texts)]
pub(crate) fn put_output(place: Place<'_>, room: &mut [u8], at: usize) -> usize
    ensures text { (o : Output) → PlaceTells place.entry o → Listless o
        → at + length (output_text o) < 2 ^ 64 → room.new ≡ written_at at (output_text o) room.old }
    ensures end { (o : Output) → PlaceTells place.entry o → Listless o
        → at + length (output_text o) < 2 ^ 64 → result ≡ at + length (output_text o) }
{
    match read_view(place) {
        View::Number(n) => put_number(n, room, at),
        View::Pair(a, b) => put_pair(a, b, room, at),
        View::Left(a) => put_side(b"Left(", a, room, at),
        View::Right(b) => put_side(b"Right(", b, room, at),
        View::Size(_) => at,
    }
}

// Writes the text of a pair.
#[inline(always)]
#[cycle(texts)]
fn put_pair(first: Place<'_>, second: Place<'_>, room: &mut [u8], at: usize) -> usize
    ensures text { PutsPair first.entry second.entry at room.old room.new }
    ensures end { EndsPair first.entry second.entry at result }
{
    let start = put_byte(b'(', room, at);
    let comma = put_output(first, room, start);
    let next = put_byte(b',', room, comma);
    let end = put_output(second, room, next);
    put_byte(b')', room, end)
}

// Writes the text of one side of a choice: `side`, the output and a bracket.
#[cycle(texts)]
fn put_side(side: &[u8], part: Place<'_>, room: &mut [u8], at: usize) -> usize
    ensures text { PutsSide side.now part.entry at room.old room.new }
    ensures end { EndsSide side.now part.entry at result }
{
    put_after(room, at, side);
    let end = put_output(part, room, at.saturating_add(side.len()));
    put_byte(b')', room, end)
}

// Writes a byte.
#[inline(always)]
fn put_byte(byte: u8, room: &mut [u8], at: usize) -> usize
    ensures text { room.new ≡ written_at at (byte ∷ []) room.old }
    ensures end { at + 1 < 2 ^ 64 → result ≡ at + 1 }
{
    if at < room.len() {
        room[at] = byte;
    }
    at.saturating_add(1)
}

// Writes the digits of a number.
fn put_number(n: u64, room: &mut [u8], at: usize) -> usize
    ensures text { room.new ≡ written_at at (decimal n) room.old }
    ensures end { at + length (decimal n) < 2 ^ 64 → result ≡ at + length (decimal n) }
{
    let mut buffer = Buffer::new();
    let digits = buffer.format(n).as_bytes();
    put_after(room, at, digits);
    at.saturating_add(digits.len())
}
