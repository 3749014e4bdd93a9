// The writer of images: 44 bytes for each four words, then the end record.
#![tactic(auto)]

ghost use Rattle.std.specs.Prelude.{◌≡◌, ◌%◌, ◌≤◌, [], ◌∷◌, length, slice_index};
ghost use Rattle.std.proofs.lemmas.List.Edits.{sets};
ghost use Rattle.image_meaning.specs.Digits.{digit, hex, sum_of};
ghost use Rattle.image_meaning.specs.Writing.{data_bytes, data_line, written_text, written_length, write_answer, room_after};

use answers::Refusal;

// The digit, upper case, of a value modulo 16.
#[tactic(auto, unfolding(image_meaning::specs::Digits::digit))]
fn digit(v: u8) -> u8
    ensures { result ≡ digit (v % 16) }
{
    let v = v % 16;
    if v < 10 { b'0' + v } else { b'A' - 10 + v }
}

// A byte's two digits.
fn digits(b: u8) -> [u8; 2]
    ensures { result ≡ hex (b ∷ []) }
{
    [digit(b / 16), digit(b)]
}

// The bytes of a data record of four words, before the checksum.
fn data_bytes(address: u16, words: [u32; 4]) -> [u8; 20]
    ensures { result ≡ data_bytes address (slice_index words 0) (slice_index words 1) (slice_index words 2) (slice_index words 3) }
{
    let [w, x, y, z] = words;
    let [high, low] = address.to_be_bytes();
    let [w3, w2, w1, w0] = w.to_be_bytes();
    let [x3, x2, x1, x0] = x.to_be_bytes();
    let [y3, y2, y1, y0] = y.to_be_bytes();
    let [z3, z2, z1, z0] = z.to_be_bytes();
    [
        16, high, low, 0, w3, w2, w1, w0, x3, x2, x1, x0, y3, y2, y1, y0, z3, z2, z1, z0,
    ]
}

// The bytes of a record, summed up modulo 256.
fn summed(bytes: &[u8]) -> u8
    ensures { result ≡ sum_of bytes.now % 256 }
{
    bytes.iter().fold(0u8, |sum, b| sum.wrapping_add(*b))
}

// The line of a data record of four words.
fn data_line(address: u16, words: [u32; 4]) -> [u8; 44]
    ensures { result ≡ data_line address (slice_index words 0) (slice_index words 1) (slice_index words 2) (slice_index words 3) }
{
    let bytes = data_bytes(address, words);
    let mut line = [b'\n'; 44];
    line[0] = b':';
    for (k, b) in bytes.iter().enumerate() {
        let [high, low] = digits(*b);
        line[2 * k + 1] = high;
        line[2 * k + 2] = low;
    }
    let [high, low] = digits(0u8.wrapping_sub(summed(&bytes)));
    line[41] = high;
    line[42] = low;
    line
}

// The whole text, from the front of a room that is long enough.
fn put_text(memory: &[u32], room: &mut [u8])
    requires fours { length memory.now % 4 ≡ 0 }
    requires most { length memory.now ≤ 16384 }
    requires fits { written_length (length memory.now) ≤ length room.old }
    ensures { room.new ≡ sets room.old 0 (written_text memory.now) }
{
    let (fours, _) = memory.as_chunks::<4>();
    // the room by places: a proof knows nothing of what was written through `chunks_exact_mut`
    for (i, four) in fours.iter().enumerate() {
        let line = data_line((16 * i) as u16, *four);
        room[44 * i..44 * i + 44].copy_from_slice(&line);
    }
    let end = 44 * fours.len();
    room[end..end + 12].copy_from_slice(b":00000001FF\n");
}

// The whole call: the bytes written. The room is not touched before all is known to fit.
#[tactic(auto, using(image_meaning::proofs::InFours::whole_fours, image_meaning::proofs::InFours::at_most_16384), unfolding(image_meaning::specs::Writing::write_answer, image_meaning::specs::Writing::room_after))]
pub fn write(memory: &[u32], room: &mut [u8]) -> Result<usize, Refusal>
    ensures { (result ≡ write_answer memory.now room.old)
        × (room.new ≡ room_after memory.now room.old) }
{
    if !words::lengths::legal(memory.len()) {
        return Err(Refusal::MemoryLength);
    }
    let needed = 11 * memory.len() + 12;
    if room.len() < needed {
        return Err(Refusal::Room(needed));
    }
    put_text(memory, room);
    Ok(needed)
}
