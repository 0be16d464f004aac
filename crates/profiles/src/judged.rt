// Which rule is judged in which profile. A profile has a number for each hundred of rules; its bit k says whether the rule
// that is k above the hundred is judged.
ghost use Rattle.std.specs.Prelude.{◌≡◌};
ghost use Rattle.profiles.specs.Judged.{judges};
ghost use Rattle.profiles.specs.Workings.Bits.{of_hundred, judged_bits};

use crate::fields::Profile;

// The bits of rules from 100 on, from 200, from 300, from 400.
fn of_hundred(hundred: usize, fields: u64, key: u64, extensions: u64, values: u64) -> u64
    ensures { result ≡ of_hundred hundred fields key extensions values }
{
    match hundred {
        1 => fields,
        2 => key,
        3 => extensions,
        4 => values,
        _ => 0,
    }
}

fn judged_bits(p: Profile, hundred: usize) -> u64
    ensures { result ≡ judged_bits p hundred }
{
    match p {
        Profile::Domain => of_hundred(hundred, 0x10FFEE, 0x7E, 0xA003FE003FE001FE, 0xFFFBE),
        Profile::Organization => of_hundred(hundred, 0x1FFFEE, 0x7E, 0xA003FE003FE001FE, 0xFFFBE),
        Profile::Responder => of_hundred(hundred, 0x23FFFE, 0xF6, 0x6007FA007FA0057A, 0xD5BBA),
        Profile::Subordinate => of_hundred(hundred, 0x43FFEE, 0x112, 0x200BFE00BFE00B7E, 0x1EFA68A),
    }
}

pub fn holds(p: Profile, rule: usize) -> bool
    ensures { result ≡ judges p rule }
{
    octets::bit(judged_bits(p, rule / 100), (rule % 100) as u8)
}
