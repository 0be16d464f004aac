// Must apart from should (document 02, CR 3).
ghost use Rattle.std.specs.Prelude.{◌≡◌};
ghost use Rattle.profiles.specs.Levels.{level_number};
ghost use Rattle.profiles.specs.Judged.{level_of};

// What a rule says of what it asks for: that it must be so, or that it should.
#[derive(Clone, Copy)]
pub enum Level {
    Must,
    Should,
}

// The level of a rule: an arm for each that says "should". All rules so far say "must".
pub fn level_of(rule: usize) -> Level
    ensures { result ≡ level_of rule }
{
    match rule {
        _ => Level::Must,
    }
}

// The number that an entry has for it.
pub fn level_number(level: Level) -> usize
    ensures { result ≡ level_number level }
{
    match level {
        Level::Must => 1,
        Level::Should => 2,
    }
}
