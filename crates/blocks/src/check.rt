// "Check: 1 plus the sum of (i+1) times octet i, i from 0 to 509, modulo the prime 65,521" (document 01, "The deck").
ghost use Rattle.std.specs.Prelude.{◌≡◌, ◌+◌, ◌≤◌, ◌<◌, ◌^◌, length, take, drop};
ghost use Rattle.blocks.specs.Block.{weigh, check_of, sound};

// The sum of the octets, each times the low octet of its weight: 1 to 255, then 0, 1 and on. Both factors of a product fit
// in an octet, so that a machine multiplies several at a time.
fn low_sum(body: &[u8]) -> u32
    requires { length body.now ≤ 510 }
    ensures { (result ≡ weigh 1 (take 255 body.now) + weigh 0 (drop 255 body.now)) × (result < 2 ^ 26) }
{
    let mut sum: u32 = 0;
    let mut weight: u32 = 1;
    for b in body {
        sum += (weight % 256) * u32::from(*b);
        weight += 1;
    }
    sum
}

// The sum of octets, of which there are few enough for 16 bits.
fn plain_sum(part: &[u8]) -> u16
    requires { length part.now ≤ 255 }
    ensures { weigh 1 part.now ≡ weigh 0 part.now + result }
{
    part.iter().map(|b| u16::from(*b)).sum()
}

// What the low octets of the weights leave is 256 times the octets from place 255 on. All of it stays below 2^27, so one
// remainder at the end does.
fn check_body(body: &[u8]) -> usize
    requires { length body.now ≤ 510 }
    ensures { (result ≡ check_of body.now) × (result < 65521) }
{
    let low = low_sum(body);
    if body.len() <= 255 {
        return ((1 + low) % 65521) as usize;
    }
    let high = plain_sum(&body[255..]);
    ((1 + low + 256 * (high as u32)) % 65521) as usize
}

// The check of a block's first 510 octets, or of as many as it has.
pub fn check_of(block: &[u8]) -> usize
    ensures { (result ≡ check_of (take 510 block.now)) × (result < 65521) }
{
    if block.len() < 510 {
        return check_body(block);
    }
    check_body(&block[..510])
}

// Whether a block has its 512 octets, the last two the check of those before.
pub fn is_sound_block(block: &[u8]) -> bool
    ensures { result ≡ sound block.now }
{
    if block.len() != 512 {
        return false;
    }
    check_of(block) == octets::pair(block, 510)
}
