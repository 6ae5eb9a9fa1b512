// A sheet in a file: "16-bit numbers, high byte first" (document 01, "The sheet"). Quotations are from document 01.
#![tactic(auto)]

ghost use Rattle.std.specs.Prelude.{◌≡◌, ◌+◌, ◌*◌, ◌/◌, ◌%◌, ◌≤◌, length, take};
ghost use Rattle.rules.specs.Lister.{numbers_of};
ghost use Rattle.sheet_file.specs.Files.{is_whole, sheet_in, file_in};

// "over 65,536 bytes .. is 2": the bytes of the longest sheet file.
pub const LONGEST: usize = 65536;

// The numbers of the longest sheet file.
pub const NUMBERS: usize = LONGEST / 2;

fn number(high: u8, low: u8) -> u16
    ensures { result ≡ high * 256 + low }
{
    u16::from(high) * 256 + u16::from(low)
}

// The numbers of the file's first 2n bytes, at the start of s.
fn numbers(file: &[u8], s: &mut [u16])
    requires { length file.now / 2 ≤ length s.old }
    ensures { take (length file.now / 2) s.new ≡ numbers_of file.now }
{
    for i in 0..file.len() / 2 {
        s[i] = number(file[2 * i], file[2 * i + 1]);
    }
}

// Whether a file has a sheet's length: "over 65,536 bytes, or an odd number, is 2".
pub fn is_whole(file: &[u8]) -> bool
    ensures { result ≡ is_whole file.now }
{
    file.len() <= LONGEST && file.len() % 2 == 0
}

// The sheet of a file, at the start of s: how many numbers it has. A file of another length than a sheet's has the sheet without numbers, which
// every call refuses with 2.
pub fn decode(file: &[u8], s: &mut [u16; NUMBERS]) -> usize
    ensures { (result ≡ length (sheet_in file.now)) × (take result s.new ≡ sheet_in file.now) }
{
    if is_whole(file) {
        numbers(file, s);
        return file.len() / 2;
    }
    0
}

fn high(n: u16) -> u8
    ensures { result ≡ n / 256 }
{
    (n / 256) as u8
}

// The file of a sheet, at the start of a buffer: how many bytes it has. Nothing where it has no room.
pub fn encode(s: &[u16], file: &mut [u8]) -> usize
    ensures { (result ≡ length (file_in (length file.old) s.now))
        × (take result file.new ≡ file_in (length file.old) s.now) }
{
    if file.len() / 2 < s.len() {
        return 0;
    }
    for (i, n) in s.iter().enumerate() {
        file[2 * i] = high(*n);
        file[2 * i + 1] = packet::low(*n);
    }
    2 * s.len()
}

// The file of the sheet that is the first n numbers of s (all of them, where there are not so many), at the start of a buffer: how many bytes
// it has. Nothing where it has no room.
pub fn encode_first(s: &[u16], n: usize, file: &mut [u8]) -> usize
    ensures { (result ≡ length (file_in (length file.old) (take n s.now)))
        × (take result file.new ≡ file_in (length file.old) (take n s.now)) }
{
    encode(&s[..n.min(s.len())], file)
}
