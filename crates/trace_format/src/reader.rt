// Reads a trace record by record.
ghost use Rattle.std.specs.Prelude.{◌≡◌, ◌<◌, ◌≤◌, ◌++◌, ◌∷◌, [], length, IfOk, IfErr};
ghost use Rattle.std.specs.Int.{to_be_bytes, w16, w64};
ghost use Rattle.trace_format.specs.Kinds.{payload_len};
ghost use Rattle.trace_format.specs.Bytes.{Begins, Broken};

use crate::fault::{Fault, Trouble};
use crate::record::{Kind, Record};

// A tag, and a length in two bytes.
const HEAD_LEN: usize = 3;

const ADDRESS_LEN: usize = 8;

// A record as it stands in an input: its payload is the part of the input that it is.
#[derive(Clone, Copy, PartialEq, Eq, Debug)]
pub struct Part<'a> {
    pub kind: Kind,
    pub payload: &'a [u8],
    // where the tag stands, in bytes from 0
    pub place: usize,
    ghost long: { length payload.now ≡ payload_len kind },
}

impl<'a> Part<'a> {
    ghost use Rattle.trace_format.specs.Records.{IsRecordOf};

    // The record with its numbers.
    pub fn record(&self) -> Record
        ensures { IsRecordOf self.now result }
    {
        match self.kind {
            Kind::Populate => {
                let (address, attributes) = address_and_attributes(self.payload);
                Record::Populate {
                    address,
                    attributes,
                }
            }
            Kind::Release => Record::Release {
                address: address(self.payload),
            },
            Kind::Protect => {
                let (address, attributes) = address_and_attributes(self.payload);
                Record::Protect {
                    address,
                    attributes,
                }
            }
            Kind::Touch => {
                let (address, access) = address_and_access(self.payload);
                Record::Touch { address, access }
            }
            Kind::Try => Record::Try {
                address: address(self.payload),
            },
            Kind::Census => Record::Census,
        }
    }
}

// The number of eight bytes.
fn address(bytes: &[u8]) -> u64
    requires { length bytes.now ≡ 8 }
    ensures { to_be_bytes w64 result ≡ bytes.now }
{
    let [a, b, c, d, e, f, g, h] = bytes else {
        unreachable!()
    };
    u64::from_be_bytes([*a, *b, *c, *d, *e, *f, *g, *h])
}

// The numbers of eight bytes and two.
fn address_and_attributes(bytes: &[u8]) -> (u64, u16)
    requires { length bytes.now ≡ 10 }
    ensures { to_be_bytes w64 result.0 ++ to_be_bytes w16 result.1 ≡ bytes.now }
{
    let [.., high, low] = bytes else {
        unreachable!()
    };
    (
        address(&bytes[..ADDRESS_LEN]),
        u16::from_be_bytes([*high, *low]),
    )
}

// The numbers of eight bytes and one.
fn address_and_access(bytes: &[u8]) -> (u64, u8)
    requires { length bytes.now ≡ 9 }
    ensures { to_be_bytes w64 result.0 ++ result.1 ∷ [] ≡ bytes.now }
{
    (address(&bytes[..ADDRESS_LEN]), bytes[ADDRESS_LEN])
}

// Hands out the records of an input, and then the end or a fault.
#[derive(Debug, Drop)]
pub struct Reader<'a> {
    input: &'a [u8],
    position: usize,
    ghost within: { position ≤ length input.now },
}

impl<'a> Reader<'a> {
    ghost use Rattle.trace_format.specs.Records.{input_of, place_of, Reads};

    // At the first byte.
    pub fn new(input: &'a [u8]) -> Reader<'a>
        ensures input { input_of result ≡ input.now }
        ensures start { place_of result ≡ 0 }
    {
        Reader { input, position: 0 }
    }

    // The next record; none where no byte is left. At the end and behind a fault the reader stays where it is.
    pub fn next(&mut self) -> Result<Option<Part<'a>>, Fault>
        ensures input { input_of self.new ≡ input_of self.old }
        ensures reads { Reads (input_of self.old) (place_of self.old) result (place_of self.new) }
    {
        let place = self.position;
        let left = &self.input[place..];
        if left.is_empty() {
            return Ok(None);
        }
        match first_record(left) {
            Ok((kind, payload)) => {
                self.position = place + HEAD_LEN + payload.len();
                Ok(Some(Part {
                    kind,
                    payload,
                    place,
                }))
            }
            Err(trouble) => Err(Fault { trouble, place }),
        }
    }
}

// The kind and the payload of the record at the front of these bytes.
#[tactic(auto, using(crate::proofs::Heads::begins))]
fn first_record(bytes: &[u8]) -> Result<(Kind, &[u8]), Trouble>
    requires { 0 < length bytes.now }
    ensures ok { IfOk result (λ r. Begins bytes.now r.0 r.1.now) }
    ensures err { IfErr result (Broken bytes.now) }
{
    let [tag, high, low, rest @ ..] = bytes else {
        return Err(Trouble::Cut);
    };
    let kind = Kind::of_tag(*tag).ok_or(Trouble::UnknownTag)?;
    let long = usize::from(*high) * 256 + usize::from(*low);
    if long != kind.payload_len() {
        return Err(Trouble::WrongLength);
    }
    let payload = rest.get(..long).ok_or(Trouble::Cut)?;
    Ok((kind, payload))
}
