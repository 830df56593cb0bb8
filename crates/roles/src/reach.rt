// The roles to which told inclusions lead from a role.
ghost use Rattle.std.specs.Prelude.{◌≡◌, ℕ, ◌/◌, ◌<◌, length, Decides};
ghost use Rattle.words.specs.Sets.{has};
ghost use Rattle.roles.specs.Told.{Inside};
ghost use Rattle.roles.specs.Closure.{Leads};
ghost use Rattle.roles.specs.Rounds.{round_to};

// One round over the pairs: where the lower role is in the set the upper one comes in, and what came in counts at once.
fn round(pairs: &[u8], set: u64) -> u64
    requires { Inside 64 pairs.now }
    ensures { result ≡ round_to pairs.now (length pairs.now / 2) set }
{
    let (told, _) = pairs.as_chunks::<2>();
    let mut found = set;
    for [lower, upper] in told {
        if words::member(found, *lower as usize) {
            found = words::insert(found, *upper as usize);
        }
    }
    found
}

// The set of the roles to which told inclusions lead from r, r among them: rounds until one adds nothing.
pub fn reach(pairs: &[u8], r: usize) -> u64
    requires inside { Inside 64 pairs.now }
    requires role { r < 64 }
    ensures { (s : ℕ) → Decides (has result s) (Leads pairs.now r s) }
{
    let mut set = words::single(r);
    'rounds: loop {
        let more = round(pairs, set);
        if more == set {
            return set;
        }
        set = more;
    }
}
