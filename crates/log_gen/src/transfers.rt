ghost use Rattle.std.specs.Prelude.{◌≡◌, ◌≤◌};
ghost use Rattle.log_gen.specs.Rules.{transfers, transfers_each};

/// The number of transfers of a log: 20,000.
#[tactic(auto, unfolding(crate::specs::Rules::transfers))]
pub fn transfers() -> u64
    ensures value { result ≡ transfers }
    ensures few { result ≤ 20000 }
{
    20_000
}

/// The number of transfers of each of the four sources: 5,000.
#[tactic(auto, unfolding(crate::specs::Rules::transfers_each))]
pub fn transfers_each() -> u64
    ensures value { result ≡ transfers_each }
    ensures few { result ≤ 5000 }
{
    5_000
}
