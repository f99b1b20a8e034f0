// What is asked of a text: its hash, its name key, its seconds.
use crate::show::Bytes;
use key::NameError;

// Published vectors of FNV-1a, 64 bits.
const VECTORS: [&[u8]; 12] = [
    b"", b"a", b"b", b"c", b"d", b"e", b"f", b"fo", b"foo", b"foob", b"fooba", b"foobar",
];

const ENDED_VECTORS: [&[u8]; 4] = [b"\0", b"a\0", b"foobar\0", b"chongo was here!\n"];

fn hash(rt: &impl Print, text: &[u8]) {
    let _ = println!(rt; "hash \"{}\" {:016x}", Bytes(text), key::key(text));
}

fn product(rt: &impl Print, label: &str, a: u64, b: u64) {
    let _ = println!(rt; "product \"{label}\" {:016x}", key::wrapping_mul(a, b));
}

// The vectors, the same hash in two parts, and products at the ends of u64.
pub fn hashes(rt: &impl Print) {
    for text in VECTORS {
        hash(rt, text);
    }
    let parts = key::fold(key::key(b"foo"), b"bar");
    let _ = println!(rt; "fold \"foo + bar\" {parts:016x}");
    for text in ENDED_VECTORS {
        hash(rt, text);
    }
    product(rt, "0 * largest", 0, u64::MAX);
    product(rt, "largest * largest", u64::MAX, u64::MAX);
    product(rt, "2^32 * 2^32", 1 << 32, 1 << 32);
    product(rt, "largest * prime", u64::MAX, 0x100000001b3);
}

// Spellings of one name, with no word, and with controls.
const ASCII_NAMES: [&[u8]; 13] = [
    b"alexanderplatz sued",
    b"Alexanderplatz SUED",
    b" \tAlexanderplatz \n\r sued\x0c ",
    b"alexanderplatzsued",
    b"@[`{~",
    b"",
    b" \t\x0b ",
    b"a\x08",
    b"a\x0e",
    b"a\x1f",
    b"\x7f",
    b"B\xc3\xa9con\0",
    b"\0\x80",
];

// Accents that count, letters that don't fold, spaces and controls from 128 on.
const LATIN_NAMES: [&[u8]; 14] = [
    b"B\xc3\xa9con",
    b"B\xc3\x89CON",
    b"\xc2\xa0b\xc3\xa9Con\xc2\x85",
    b"Becon",
    b"\xc3\x80\xc3\x96\xc3\x98\xc3\x9e",
    b"\xc3\xa0\xc3\xb6\xc3\xb8\xc3\xbe",
    b"\xc3\x97\xc3\x9f",
    b"\xc3\xb7\xc3\xbf",
    b"\xc2\xa1\xc2\xad\xc2\xb5\xc2\xbf",
    b"\xc2\x85\xc2\xa0",
    b"a\xc2\x80",
    b"a\xc2\x84",
    b"a\xc2\x86",
    b"a\xc2\x9f",
];

// Names that are no UTF-8 of code points up to 255; of two faults the first code point says which.
const OTHER_NAMES: [&[u8]; 9] = [
    b"a\xc3",
    b"a\x80",
    b"\xc1\x81",
    b"\xc3\xc3\xa9",
    b"\xe9",
    b"\xc4\x80",
    b"\xe2\x84\xaa",
    b"\xc2\x80\xff",
    b"\xff\xc2\x80",
];

// For this program alone: a `Display` of the cases would name the same three.
fn reason(error: NameError) -> &'static str {
    match error {
        NameError::NoWord => "no word",
        NameError::Control => "control",
        NameError::NotLatin => "not latin",
    }
}

fn each_name(rt: &impl Print, names: &[&[u8]]) {
    for &name in names {
        let _ = match key::name_key(name) {
            Ok(hash) => println!(rt; "name \"{}\" {hash:016x}", Bytes(name)),
            Err(error) => println!(rt; "name \"{}\" {}", Bytes(name), reason(error)),
        };
    }
}

pub fn names(rt: &impl Print) {
    each_name(rt, &ASCII_NAMES);
    each_name(rt, &LATIN_NAMES);
    each_name(rt, &OTHER_NAMES)
}

// The scope's marked time texts, texts at the ends of the range, and texts that are refused: for their colons, for their digits.
const TIMES: [&[u8]; 29] = [
    b"24:00:00",
    b"7:05:00",
    b"07:5:00",
    b"1193046:28:15",
    b"1193046:28:16",
    b"0:00:00",
    b"0:59:59",
    b"0:60:00",
    b"0:00:60",
    b"000000000000000000000001193046:28:15",
    b"100000000000000000000000000000:00:00",
    b"",
    b":",
    b"::",
    b"::::::",
    b":00:00",
    b"00:00",
    b"1:00:0",
    b"1:00:000",
    b"1:0:000",
    b"1:2:00:00",
    b"1/00/00",
    b"+1:00:00",
    b"-1:00:00",
    b"1:-1:00",
    b" 1:00:00",
    b"1:00:00 ",
    b"1:00:0\xb0",
    b"\xff:00:00",
];

fn time(rt: &impl Print, label: &[u8], text: &[u8]) {
    let _ = match time::from_str(text) {
        Ok(seconds) => println!(rt; "time \"{}\" {seconds}", Bytes(label)),
        Err(cause) => println!(rt; "time \"{}\" refused {}", Bytes(label), u8::from(cause)),
    };
}

// A text of 100,000 bytes: `first`, then zeros, with the colons in their places or other bytes there.
fn long(rt: &impl Print, label: &[u8], first: u8, colon: u8) {
    let mut text = [b'0'; 100000];
    text[0] = first;
    text[99994] = colon;
    text[99997] = colon;
    time(rt, label, &text)
}

pub fn times(rt: &impl Print) {
    for text in TIMES {
        time(rt, text, text);
    }
    long(rt, b"100000 zeros", b'0', b'0');
    long(rt, b"99994 zeros:00:00", b'0', b':');
    long(rt, b"1 and 99993 zeros:00:00", b'1', b':')
}
