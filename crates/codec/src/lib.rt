// The bytes of an image: its records and its header, little-endian.
#![tactic(auto)]

ghost use Rattle.std.specs.Prelude.{◌≡◌, ◌≤◌, ◌-◌, ◌/◌, length, map, eqb};
ghost use Rattle.codec.specs.Records.{record_bytes, encode_record, decode_record, record_in, decode_all};
ghost use Rattle.codec.specs.Headers.{header_of, count_in, fits_of, marked, check_of};

use entries::{Raw, Refusal, refuse_if};

// The bytes of a record, and of the header.
pub const RECORD: usize = 24;

// The bytes of the longest image: the header and 1,024 records.
pub const LONGEST_IMAGE: usize = 24600;

// An entry as it is given, and its next index.
#[derive(Clone, Copy)]
pub struct Record {
    pub raw: Raw,
    pub next: u16,
}

impl Record {
    // The record that bytes hold.
    #[tactic(auto, unfolding(crate::specs::Records::decode_record))]
    pub fn decode(b: &[u8; RECORD]) -> Record
        ensures { result ≡ decode_record b.now }
    {
        let raw = Raw {
            kind: b[0],
            node: b[1],
            account: u16::from_le_bytes([b[2], b[3]]),
            day: u16::from_le_bytes([b[4], b[5]]),
            serial: u32::from_le_bytes([b[8], b[9], b[10], b[11]]),
            amount: u32::from_le_bytes([b[12], b[13], b[14], b[15]]),
            named_serial: u32::from_le_bytes([b[16], b[17], b[18], b[19]]),
            a: u16::from_le_bytes([b[20], b[21]]),
            b: b[22],
            named_node: b[23],
        };
        let next = u16::from_le_bytes([b[6], b[7]]);
        Record { raw, next }
    }

    // The bytes that hold it.
    #[tactic(auto, unfolding(crate::specs::Records::encode_record))]
    pub fn encode(self) -> [u8; RECORD]
        ensures { result ≡ encode_record self }
    {
        let raw = self.raw;
        let mut b = [0; RECORD];
        b[0] = raw.kind;
        b[1] = raw.node;
        b[2..4].copy_from_slice(&raw.account.to_le_bytes());
        b[4..6].copy_from_slice(&raw.day.to_le_bytes());
        b[6..8].copy_from_slice(&self.next.to_le_bytes());
        b[8..12].copy_from_slice(&raw.serial.to_le_bytes());
        b[12..16].copy_from_slice(&raw.amount.to_le_bytes());
        b[16..20].copy_from_slice(&raw.named_serial.to_le_bytes());
        b[20..22].copy_from_slice(&raw.a.to_le_bytes());
        b[22] = raw.b;
        b[23] = raw.named_node;
        b
    }
}

// The bytes of each record, one after another. What is left past the last whole record is left out.
#[tactic(auto, using(crate::proofs::Records::decode_chunks))]
pub fn records_in(bytes: &[u8]) -> &[[u8; RECORD]]
    ensures { map decode_record result.now ≡ decode_all (length bytes.now / record_bytes) bytes.now }
{
    let (records, _) = bytes.as_chunks::<RECORD>();
    records
}

// The record at the start of bytes. What they are too short for is 0.
#[tactic(auto, using(crate::proofs::Records::decode_take, crate::proofs::Records::decode_padded))]
fn first_in(bytes: &[u8]) -> Record
    ensures { result ≡ decode_record bytes.now }
{
    if let Some(whole) = bytes.first_chunk() {
        return Record::decode(whole);
    }
    let mut padded = [0; RECORD];
    padded[..bytes.len()].copy_from_slice(bytes);
    Record::decode(&padded)
}

// The record of a number, from 1. What the image is too short for is 0.
#[tactic(auto, using(std::proofs::lemmas::List::drop_min))]
pub fn record_in(image: &[u8], number: u16) -> Record
    ensures { result ≡ record_in image.now number }
{
    let at = (RECORD * usize::from(number)).min(image.len());
    first_in(&image[at..])
}

// The header of an image with so many records.
#[tactic(auto, unfolding(crate::specs::Headers::header_of))]
pub fn header(count: u16) -> [u8; RECORD]
    ensures { result ≡ header_of count }
{
    let mut bytes = [0; RECORD];
    bytes[..4].copy_from_slice(b"CHB1");
    bytes[4..6].copy_from_slice(&count.to_le_bytes());
    bytes
}

// Whether an image may have this length: 24 to 24,600 bytes, a multiple of 24.
fn fits(n: usize) -> bool
    ensures { result ≡ fits_of n }
{
    (RECORD..=LONGEST_IMAGE).contains(&n) && n % RECORD == 0
}

// Whether the mark is CHB1, and the header's bytes after the count are zero.
fn marked(image: &[u8]) -> bool
    requires { record_bytes ≤ length image.now }
    ensures { result ≡ marked image.now }
{
    image.starts_with(b"CHB1") && image[6..RECORD] == [0; 18][..]
}

// Whether the count in the header is that of the records after it.
#[tactic(auto, using(crate::proofs::Bytes::from_bytes_two))]
fn counted(image: &[u8]) -> bool
    requires { record_bytes ≤ length image.now }
    ensures { result ≡ eqb (count_in image.now) (length image.now / record_bytes - 1) }
{
    usize::from(u16::from_le_bytes([image[4], image[5]])) == image.len() / RECORD - 1
}

// 17 to 19: the length, the header, the count.
#[tactic(auto, unfolding(crate::specs::Headers::check_of, entries::specs::Refusals::refuse_if))]
pub fn check(image: &[u8]) -> Result<(), Refusal>
    ensures { result ≡ check_of image.now }
{
    refuse_if(!fits(image.len()), Refusal::ImageLength)?;
    refuse_if(!marked(image), Refusal::ImageHeader)?;
    refuse_if(!counted(image), Refusal::ImageCount)
}
