//! How large a formula may be.
ghost use Rattle.std.specs.Prelude.{◌≡◌, ◌≤◌};
ghost use Rattle.theory.specs.Reading.{large, max_vars, max_clauses, max_literals, max_bytes};
ghost use Rattle.theory.specs.ProofReading.{max_proof_bytes};
ghost use Rattle.cnf.specs.Limits.{limits_of};

/// How large a formula, its text and the text of a proof may be. Nothing is reserved by a limit: time and memory follow
/// what the text holds.
#[derive(Clone, Copy, Debug, PartialEq, Eq)]
pub enum Limits {
    /// 262,143 variables, 1,000,000 clauses, 8,000,000 literals and 67,108,864 bytes; a
    /// proof of 2^32 bytes.
    Standard,

    /// 100,000,000 variables, 1,000,000,000 clauses, 8,000,000,000 literals and 2^40
    /// bytes; a proof of 2^62 bytes.
    Large,
}

impl Limits {
    /// The most variables of a formula.
    pub fn vars(self) -> u32
        ensures is { result ≡ max_vars (limits_of self) }
        ensures few { result ≤ max_vars large }
    {
        match self {
            Limits::Standard => 262_143,
            Limits::Large => 100_000_000,
        }
    }

    /// The most clauses of a formula.
    pub fn clauses(self) -> u32
        ensures is { result ≡ max_clauses (limits_of self) }
        ensures few { result ≤ max_clauses large }
    {
        match self {
            Limits::Standard => 1_000_000,
            Limits::Large => 1_000_000_000,
        }
    }

    /// The most literals in all clauses of a formula.
    pub fn literals(self) -> u64
        ensures is { result ≡ max_literals (limits_of self) }
        ensures few { result ≤ max_literals large }
    {
        match self {
            Limits::Standard => 8_000_000,
            Limits::Large => 8_000_000_000,
        }
    }

    /// The most bytes of a formula's text.
    pub fn bytes(self) -> usize
        ensures is { result ≡ max_bytes (limits_of self) }
        ensures few { result ≤ max_bytes large }
    {
        match self {
            Limits::Standard => 67_108_864,
            Limits::Large => 1_099_511_627_776,
        }
    }

    /// The most bytes of a proof's text.
    pub fn proof_bytes(self) -> u64
        ensures is { result ≡ max_proof_bytes (limits_of self) }
        ensures few { result ≤ max_proof_bytes large }
    {
        match self {
            Limits::Standard => 4_294_967_296,
            Limits::Large => 4_611_686_018_427_387_904,
        }
    }
}
