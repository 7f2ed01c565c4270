// One record: sixteen bytes taken apart, and put together again.
ghost use Rattle.std.specs.Prelude.{◌≡◌, ◌++◌, length};
ghost use Rattle.limits.specs.Limits.{size};
ghost use Rattle.rules.specs.Records.{little, bytes_of, block_of, arm_of, record_of};

use limits::{ENDS, MARKS, NUMBERS};
use rules::Record;

fn weight(r: &[u8]) -> u64
    requires { length r.now ≡ size }
    ensures { result ≡ little r.now 8 8 }
{
    u64::from_le_bytes([r[8], r[9], r[10], r[11], r[12], r[13], r[14], r[15]])
}

#[tactic(auto, unfolding(rules::specs::Records::block_of))]
fn block(r: &[u8]) -> Record
    requires { length r.now ≡ size }
    ensures { result ≡ block_of r.now }
{
    let number = u16::from(r[1]);
    if NUMBERS as u16 <= number || MARKS <= r[2] || ENDS <= r[3] {
        return Record::Outside;
    }
    Record::Block {
        number,
        marks: r[2],
        end: r[3],
        weight: weight(r),
    }
}

#[tactic(auto, unfolding(rules::specs::Records::arm_of))]
fn arm(r: &[u8]) -> Record
    requires { length r.now ≡ size }
    ensures { result ≡ arm_of r.now }
{
    let args = r[3];
    if 2 <= args {
        return Record::Outside;
    }
    Record::Arm {
        from: u16::from(r[1]),
        to: u16::from(r[2]),
        args,
        weight: weight(r),
    }
}

// What sixteen bytes are; `Outside` where a field is outside the layout, which the rules count as a record of its own.
#[tactic(auto, unfolding(rules::specs::Records::record_of, rules::specs::Records::gap_zero))]
pub fn decode(r: &[u8]) -> Record
    requires { length r.now ≡ size }
    ensures { result ≡ record_of r.now }
{
    if r[4] != 0 || r[5] != 0 || r[6] != 0 || r[7] != 0 {
        return Record::Outside;
    }
    match r[0] {
        1 => block(r),
        2 => arm(r),
        _ => Record::Outside,
    }
}

// The record with these bytes before its weight.
pub fn encode(o: &mut [u8], head: [u8; 8], weight: u64)
    requires { length o.old ≡ size }
    ensures { o.new ≡ head ++ bytes_of 8 weight }
{
    o[..8].copy_from_slice(&head);
    o[8..].copy_from_slice(&weight.to_le_bytes());
}
