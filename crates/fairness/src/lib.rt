// One trade's lines, and whether a sheet's fills keep the share rule among them.
#![tactic(auto)]

ghost use Rattle.std.specs.Prelude.{◌≡◌, ◌≤◌, length};
ghost use Rattle.rules.specs.Basics.{sum};
ghost use Rattle.rules.specs.Limits.{most_trade_lines};
ghost use Rattle.fairness.specs.Lines.{fills_in, RuleAnswered};
ghost use Rattle.fairness.specs.Pairs.{Breaks};

// A line of a trade as the share rule looks at it: its claim, its customer contracts, and what it is filled.
#[derive(Clone, Copy)]
pub struct Portion {
    pub claim: u32,
    pub customers: u32,
    pub filled: u32,
}

impl Portion {
    // Of a line that is not gathered yet.
    pub const NOTHING: Portion = Portion {
        claim: 0,
        customers: 0,
        filled: 0,
    };
}

// What a trade's lines are filled together.
pub fn total(portions: &[Portion]) -> u64
    requires { length portions.now ≤ most_trade_lines }
    ensures { result ≡ sum (fills_in portions.now) }
{
    let mut sum: u64 = 0;
    for portion in portions {
        sum += u64::from(portion.filled);
    }
    sum
}

// Whether a line, filled below its claim, has too little beside another.
#[tactic(auto, using(crate::proofs::Rule::breaks_laws))]
pub fn breaks(portion: Portion, other: Portion) -> bool
    ensures { Breaks portion other result }
{
    if portion.claim <= portion.filled {
        return false;
    }
    u64::from(portion.filled + 1) * u64::from(other.customers)
        < u64::from(other.filled) * u64::from(portion.customers)
}

// The share rule, "for any two lines of a trade": the checker "stops at the first pair of lines that breaks" it.
pub fn keeps_rule(portions: &[Portion]) -> bool
    ensures { RuleAnswered portions.now result }
{
    let mut kept = true;
    'lines: for i in 0..portions.len() {
        for j in 0..portions.len() {
            if breaks(portions[i], portions[j]) {
                kept = false;
                break 'lines;
            }
        }
    }
    kept
}
