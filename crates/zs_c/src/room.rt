//! Writes texts and words to buffers of the caller.

ghost use Rattle.std.specs.Prelude.{◌≡◌, ◌≤◌, ◌++◌, length, take, drop};
ghost use Rattle.zs_c.specs.Told.{written};

// Writes a text to the front of a buffer, as far as it fits.
pub(crate) fn put(room: &mut [u8], text: &[u8])
    ensures front { room.new ≡ written text.now room.old }
{
    let fitting = room.len().min(text.len());
    room[..fitting].copy_from_slice(&text[..fitting]);
}

// Writes a text after the first bytes of a buffer, as far as it fits.
pub(crate) fn put_after(room: &mut [u8], first: usize, text: &[u8])
    ensures after { room.new ≡ take first room.old ++ written text.now (drop first room.old) }
{
    if first < room.len() {
        put(&mut room[first..], text);
    }
}

// Writes words to the front of a buffer, if it has at least their length. Returns their number.
#[inline(always)]
pub(crate) fn put_words(room: &mut [u64], words: &[u64]) -> usize
    ensures size { result ≡ length words.now }
    ensures front { result ≤ length room.old → room.new ≡ words.now ++ drop result room.old }
{
    if words.len() <= room.len() {
        room[..words.len()].copy_from_slice(words);
    }
    words.len()
}
