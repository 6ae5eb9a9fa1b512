// Writing the sheet of packets: "16-bit numbers .. in three sections, each after its count".
// The packets come as a string of DANC bytes, which is what a reader has found. The string is measured before a number is written,
// so that a buffer without room for the sheet stays as it was.
ghost use Rattle.std.specs.Prelude.{◌≡◌, cond, Some, None, List, ◌++◌, map, ℕ, ◌+◌, ◌-◌, ◌*◌, ◌%◌, ◌≤◌, ◌<◌, min, eqb, length, take, drop};
ghost use Rattle.rules.specs.Packet.{word, sum9};
ghost use Rattle.rules.specs.Sheet.{locations, all_words, sheet_of};
ghost use Rattle.rules.specs.Reading.{line_of};
ghost use Rattle.packet.specs.Run.{word_table};
ghost use Rattle.sheet.specs.Write.{wrote, sheet_after, framed, words_after, head_of, id_sum, packets_shown, Whole, RoomForWords, Measured, count_to};

use frame::wide;

// No system has more user bytes, so no string is longer.
const LONGEST: usize = 9360;

// From here on the array has fewer than 7 bytes left, so no packet starts; before it a packet's DC is within the array.
const NO_PACKET: usize = 9354;

// Packets of fewer bytes than so many, on the average, are written by the table.
const SHORT: usize = 16;

// The words of fewer bytes than so many, of one packet, are looked up; those of more are faster in vectors.
const FEW: usize = 32;

// A sheet has a line's number alone.
fn line_of(h0: u8, h1: u8) -> u16
    ensures { result ≡ line_of h0 h1 }
{
    danc::line_of(h0, h1).0
}

// Where measuring stops: at the string's end, or before it where no packet starts.
fn stop_of(end: usize) -> usize
    ensures { result ≡ min end 9354 }
{
    end.min(NO_PACKET)
}

// Whole packets end where the string does.
fn measured(end: usize, at: usize, k: usize) -> Option<usize>
    ensures { result ≡ cond (eqb at end) (Some k) None }
{
    (at == end).then_some(k)
}

// "A string is nothing, or one packet and then a string that is shorter by that packet": how many packets stand from `at` to `end`, and
// k before them; none where the bytes are not whole packets. The bytes left fall at each call. Over an array the calls become a loop. It asks
// of each packet only whether one starts: one that is cut leads past the end, and whether the last ended there is asked once.
fn measure(us: &[u8; 9360], stop: usize, end: usize, at: usize, k: usize) -> Option<usize>
    requires { (length us.now ≡ 9360) × (end ≤ 9360) × (stop ≡ min end 9354) × (k ≤ at) }
    ensures { result ≡ count_to end at k us.now }
{
    if stop <= at {
        return measured(end, at, k);
    }
    measure(us, stop, end, at + (wide(us[at + 5]) + 7), k + 1)
}

// "P pairs: line .. and flags"; "Packet k belongs to location k".
fn write_locations(s: &[u8], out: &mut [u16])
    requires whole { Whole s.now }
    requires out_len { length out.old ≡ 2 * length (packets_shown s.now) }
    ensures { out.new ≡ locations (packets_shown s.now) }
{
    let mut at = 0;
    for k in 0..out.len() / 2 {
        let h1 = s[at + 1];
        let line = line_of(s[at], h1);
        let flags = danc::flags_of(h1);
        out[2 * k] = line;
        out[2 * k + 1] = flags;
        at += wide(s[at + 5]) + 7;
    }
}

// The words of bytes: a DANC packet has only "the low eight bits of each word".
fn write_coded(s: &[u8], out: &mut [u16])
    requires { length out.old ≡ length s.now }
    ensures { out.new ≡ map word s.now }
{
    for (i, b) in s.iter().enumerate() {
        out[i] = packet::word_of(*b);
    }
}

// "000h, 3FFh, 3FFh; DID; SDID or DBN; DC; DC user words; CS": where the words of a packet's bytes stand, the flag and CS are put.
// CS is summed over the words: of the bytes' sum "the low eight bits agree, bit 8 need not".
fn write_flag_and_cs(out: &mut [u16])
    requires { 4 ≤ length out.old }
    ensures { out.new ≡ framed (take (length out.old - 4) (drop 3 out.old)) }
{
    let end = out.len() - 1;
    out[0] = 0x000;
    out[1] = 0x3FF;
    out[2] = 0x3FF;
    out[end] = packet::check_of(&out[3..end]);
}

// The words of one packet from its bytes, DID to the last user byte (004, 7.2: a reader makes flag, parity and CS anew). Nothing is
// written where `out` is not as long as they are.
pub fn write_words(table: &[u16; 256], bytes: &[u8], out: &mut [u16])
    requires { table.now ≡ word_table }
    ensures { out.new ≡ words_after bytes.now out.old }
{
    if out.len() != bytes.len() + 4 {
        return;
    }
    if bytes.len() < FEW {
        write_few(table, bytes, out);
        return;
    }
    write_coded(bytes, &mut out[3..3 + bytes.len()]);
    write_flag_and_cs(out);
}

// "W words: packets back to back". "A DANC packet has as many bytes as its VANC packet has words", so both stand at one place.
// One pass over all bytes and then the flags and CS, since short runs of words are slower than one long one.
fn write_packets(s: &[u8], out: &mut [u16])
    requires { RoomForWords s.now out.old }
    ensures { out.new ≡ all_words (packets_shown s.now) }
{
    write_coded(s, out);
    let mut at = 0;
    while at < s.len() {
        let end = at + (wide(s[at + 5]) + 7);
        write_flag_and_cs(&mut out[at..end]);
        at = end;
    }
}

// The word of a byte by the table.
fn look_up(table: &[u16; 256], b: u8) -> u16
    requires { table.now ≡ word_table }
    ensures { (result ≡ word b) × (result < 1024) }
{
    table[wide(b)]
}

// The words of a packet's bytes by the table, and the sum of these words, onto one that was begun, for CS: few at a time, where `write_coded`
// computes many in vectors. Their bits 9 are summed too, which are multiples of 512.
fn write_looked_up(table: &[u16; 256], begun: u32, s: &[u8], out: &mut [u16]) -> u32
    requires table_value { table.now ≡ word_table }
    requires begun_bound { begun < 3072 }
    requires s_len_bound { (length s.now ≤ 255) × (length out.old ≡ length s.now) }
    ensures out_after { out.new ≡ map word s.now }
    ensures result_value { result % 512 ≡ (begun + sum9 (map word s.now)) % 512 }
{
    let mut sum = begun;
    for (i, b) in s.iter().enumerate() {
        let w = look_up(table, *b);
        out[i] = w;
        sum += u32::from(w);
    }
    sum
}

// The words of one packet by the table, from its bytes, DID to the last user byte: few, so that it takes less than `write_coded` and a sum.
// Not `write_packet`, which knows of three bytes and looks these up without a loop.
fn write_few(table: &[u16; 256], bytes: &[u8], out: &mut [u16])
    requires table_value { table.now ≡ word_table }
    requires bytes_len_bound { (length bytes.now ≤ 255) × (length out.old ≡ length bytes.now + 4) }
    ensures { out.new ≡ framed (map word bytes.now) }
{
    let end = bytes.len() + 3;
    out[0] = 0x000;
    out[1] = 0x3FF;
    out[2] = 0x3FF;
    let sum = write_looked_up(table, 0, bytes, &mut out[3..end]);
    out[end] = packet::check_sum(sum);
}

// "000h, 3FFh, 3FFh; DID; SDID or DBN; DC", without a loop, and the sum of the three words for CS.
fn write_head(table: &[u16; 256], s: &[u8], out: &mut [u16]) -> u32
    requires table_value { table.now ≡ word_table }
    requires in_bounds { (6 ≤ length s.now) × (6 ≤ length out.old) }
    ensures out_after { out.new ≡ head_of s.now ++ drop 6 out.old }
    ensures value { (result ≡ id_sum s.now) × (result < 3072) }
{
    let did = look_up(table, s[3]);
    let sdid = look_up(table, s[4]);
    let dc = look_up(table, s[5]);
    out[0] = 0x000;
    out[1] = 0x3FF;
    out[2] = 0x3FF;
    out[3] = did;
    out[4] = sdid;
    out[5] = dc;
    u32::from(did) + u32::from(sdid) + u32::from(dc)
}

// The words of one packet from its own bytes, header and all. Not `write_few`, whose loop over DID, SDID and DC takes longer.
fn write_packet(table: &[u16; 256], s: &[u8], out: &mut [u16])
    requires table_value { table.now ≡ word_table }
    requires in_bounds { (7 ≤ length s.now) × (length s.now ≤ 262) × (length out.old ≡ length s.now) }
    ensures { out.new ≡ framed (map word (take (length s.now - 4) (drop 3 s.now))) }
{
    let end = s.len() - 1;
    let ids = write_head(table, s, out);
    let sum = write_looked_up(table, ids, &s[6..end], &mut out[6..end]);
    out[end] = packet::check_sum(sum);
}

// The same where the packets are short: packet by packet and by the table, since a pass over all bytes and another over the words, in runs too
// short for vectors, take longer. Two functions for this: they are two algorithms, chosen by speed.
fn write_short_packets(s: &[u8], out: &mut [u16])
    requires { RoomForWords s.now out.old }
    ensures { out.new ≡ all_words (packets_shown s.now) }
{
    let table = packet::words();
    let mut at = 0;
    while at < s.len() {
        let end = at + (wide(s[at + 5]) + 7);
        write_packet(&table, &s[at..end], &mut out[at..end]);
        at = end;
    }
}

// The words of so many packets, in the way that takes less.
fn write_all_words(packets: usize, s: &[u8], out: &mut [u16])
    requires room { RoomForWords s.now out.old }
    requires few { packets ≤ length s.now }
    requires short { length s.now < 65536 }
    ensures { out.new ≡ all_words (packets_shown s.now) }
{
    if s.len() < SHORT * packets {
        write_short_packets(s, out)
    } else {
        write_packets(s, out)
    }
}

// "A: the count 1, then the system." "B: the count P of locations, then P pairs". "C: the count W of words, then W words".
fn write_sections(system: u16, packets: usize, s: &[u8], out: &mut [u16])
    requires { Measured packets s.now out.old }
    ensures { out.new ≡ sheet_of system (packets_shown s.now) }
{
    out[0] = 1;
    out[1] = system;
    out[2] = packets as u16;
    let mid = 3 + 2 * packets;
    write_locations(s, &mut out[3..mid]);
    out[mid] = s.len() as u16;
    write_all_words(packets, s, &mut out[mid + 1..]);
}

// A string cannot end past the array that it is the front of: an `end` there is the array's own.
fn within(end: usize) -> usize
    ensures { (result ≤ 9360) × ((s : List ℕ) → length s ≡ 9360 → take result s ≡ take end s) }
{
    end.min(LONGEST)
}

// The sheet of the packets of a string, which is `us` up to `end`, at the start of a buffer; its numbers are counted. None, and nothing
// written, where the bytes are not whole packets, or where the sheet is longer than the buffer: "A sheet has 4 + 2P + W numbers".
pub fn write_sheet(system: u16, us: &[u8; 9360], end: usize, sheet: &mut [u16]) -> Option<usize>
    ensures value { result ≡ wrote system (take end us.now) (length sheet.old) }
    ensures sheet_after { sheet.new ≡ sheet_after system (take end us.now) sheet.old }
{
    let bytes = within(end);
    let packets = measure(us, stop_of(bytes), bytes, 0, 0)?;
    let n = 4 + 2 * packets + bytes;
    if sheet.len() < n {
        return None;
    }
    write_sections(system, packets, &us[..bytes], &mut sheet[..n]);
    Some(n)
}
