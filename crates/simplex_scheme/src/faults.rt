//! How many of a committee may lie, and how many of it are a quorum: the fault model n = 3f + 1.

ghost use Rattle.std.specs.Prelude.{◌≡◌, ℕ, ◌+◌, ◌*◌, ◌≤◌};
ghost use Rattle.simplex_scheme.specs.Committee.{faults_of, quorum_of};

/// How many of `n` participants may lie: the greatest f with 3f + 1 ≤ n.
pub fn max_faults(n: u32) -> u32
    requires { 1 ≤ n }
    ensures value { result ≡ faults_of n }
    ensures borne { 3 * result + 1 ≤ n }
    ensures greatest { (faults : ℕ) → 3 * faults + 1 ≤ n → faults ≤ result }
{
    (n - 1) / 3
}

/// How many of `n` participants are a quorum: all but as many as may lie.
pub fn quorum(n: u32) -> u32
    requires { 1 ≤ n }
    ensures value { result ≡ quorum_of n }
    ensures some { 1 ≤ result }
    // Those who do not lie are a quorum.
    ensures reached { result + faults_of n ≤ n }
    // Two quorums share more participants than may lie.
    ensures overlap { n + faults_of n + 1 ≤ 2 * result }
{
    n - max_faults(n)
}
