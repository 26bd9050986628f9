// The encoding of messages. Numbers are big-endian.

ghost use Rattle.std.specs.Prelude.{◌≡◌, ◌<◌, ◌≤◌, ◌^◌, ◌↔◌, IfOk, length, List, ℕ, take, drop};
ghost use Rattle.std.specs.Prelude.{slice_index, ◌++◌};
ghost use Rattle.eventkey.specs.Message.{Message, IsRanged};
ghost use Rattle.eventkey.specs.Encoding.{made, message_bytes, message_in, message_read, sign_byte};
ghost use Rattle.eventkey.specs.Encoding.{sign_of, signed_bytes, signed_read};
ghost use Rattle.eventkey.specs.declared.KeyFault.TheVariants.{Short, TimeTooLarge, BadSign};

use crate::{KeyFault, Message, Sign, Signed};
use byteorder::{BigEndian, ByteOrder};

/// The size of an encoded message in bytes.
pub const MESSAGE_BYTES: usize = 56;

/// The size of an encoded signed message in bytes.
pub const SIGNED_BYTES: usize = 57;

/// Writes the 56 bytes of a message.
pub fn put_message(message: &Message, out: &mut [u8; 56])
    ensures { out.new ≡ message_bytes message.now }
{
    BigEndian::write_u64(out, message.time());
    BigEndian::write_u32(&mut out[8..], message.from());
    BigEndian::write_u64(&mut out[12..], message.number());
    BigEndian::write_u32(&mut out[20..], message.to());
    BigEndian::write_u64(&mut out[24..], message.a());
    BigEndian::write_u64(&mut out[32..], message.b());
    BigEndian::write_u64(&mut out[40..], message.c());
    BigEndian::write_u64(&mut out[48..], message.d());
}

/// Reads the message in the first 56 bytes, and ignores the rest. It refuses fewer bytes (`Short`),
/// then a time of 2^41 ticks or more (`TimeTooLarge`).
pub fn get_message(bytes: &[u8]) -> Result<Message, KeyFault>
    ensures exact { result ≡ message_read bytes.now }
    ensures short { (result ≡ Err KeyFault.Short) ↔ (length bytes.now < 56) }
    ensures late { (result ≡ Err KeyFault.TimeTooLarge)
        ↔ ((56 ≤ length bytes.now) × (2 ^ 41 ≤ (message_in bytes.now).time)) }

    // A message that is read encodes to these bytes, and an encoded message is read back, whatever
    // follows it.
    ensures encoded { IfOk result (λ x. take 56 bytes.now ≡ message_bytes x) }
    ensures again { (x : Message) (rest : List ℕ) → IsRanged x →
        bytes.now ≡ message_bytes x ++ rest → result ≡ Ok x }
{
    if bytes.len() < MESSAGE_BYTES {
        return Err(KeyFault::Short);
    }
    fixed_fields(bytes)
}

/// Reads the fields at their offsets.
#[tactic(auto, unfolding(crate::specs::Encoding::message_in))]
fn fixed_fields(bytes: &[u8]) -> Result<Message, KeyFault>
    requires { 56 ≤ length bytes.now }
    ensures { result ≡ made (message_in bytes.now) }
{
    let time = BigEndian::read_u64(bytes);
    let from = BigEndian::read_u32(bytes.split_at(8).1);
    let number = BigEndian::read_u64(bytes.split_at(12).1);
    let to = BigEndian::read_u32(bytes.split_at(20).1);
    let a = BigEndian::read_u64(bytes.split_at(24).1);
    let b = BigEndian::read_u64(bytes.split_at(32).1);
    let c = BigEndian::read_u64(bytes.split_at(40).1);
    let d = BigEndian::read_u64(bytes.split_at(48).1);
    Message::new(time, from, number, to, a, b, c, d)
}

/// Writes the 57 bytes of a signed message: the sign byte, 0 for a message and 1 for an
/// antimessage, then the message.
pub fn put_signed(signed: &Signed, out: &mut [u8; 57])
    ensures { out.new ≡ signed_bytes signed.now }
{
    let mut body = [0; MESSAGE_BYTES];
    put_message(&signed.message, &mut body);
    out[0] = byte_of(signed.sign);
    out[1..].copy_from_slice(&body);
}

/// Reads the signed message in the first 57 bytes, and ignores the rest. It refuses fewer bytes
/// (`Short`), then a sign byte above 1 (`BadSign`), then a time of 2^41 ticks or more
/// (`TimeTooLarge`).
pub fn get_signed(bytes: &[u8]) -> Result<Signed, KeyFault>
    ensures exact { result ≡ signed_read bytes.now }
    ensures short { (result ≡ Err KeyFault.Short) ↔ (length bytes.now < 57) }
    ensures sign { (result ≡ Err KeyFault.BadSign)
        ↔ ((57 ≤ length bytes.now) × (2 ≤ slice_index bytes.now 0)) }
    ensures late { (result ≡ Err KeyFault.TimeTooLarge)
        ↔ ((57 ≤ length bytes.now) × (slice_index bytes.now 0 < 2)
        × (2 ^ 41 ≤ (message_in (drop 1 bytes.now)).time)) }

    // A signed message that is read encodes to these bytes, and an encoded one is read back,
    // whatever follows it.
    ensures encoded { IfOk result (λ s. take 57 bytes.now ≡ signed_bytes s) }
    ensures again { (s : Signed) (rest : List ℕ) → IsRanged s.message →
        bytes.now ≡ signed_bytes s ++ rest → result ≡ Ok s }
{
    sign_and_message(bytes)
}

fn sign_and_message(bytes: &[u8]) -> Result<Signed, KeyFault>
    ensures { result ≡ signed_read bytes.now }
{
    if bytes.len() < SIGNED_BYTES {
        return Err(KeyFault::Short);
    }
    let sign = match bytes[0] {
        0 => Sign::Plus,
        1 => Sign::Minus,
        _ => return Err(KeyFault::BadSign),
    };
    let message = get_message(bytes.split_at(1).1)?;
    Ok(Signed { sign, message })
}

fn byte_of(sign: Sign) -> u8
    ensures { result ≡ sign_byte sign }
{
    match sign {
        Sign::Plus => 0,
        Sign::Minus => 1,
    }
}
