//! What holds of the definitions alone.
ghost use Rattle.std.specs.Prelude.{◌≡◌, ◌↔◌, ◌<◌, ◌≤◌, ◌^◌, IsTrue, List, ℕ, ℤ};
ghost use Rattle.std.specs.declared.net.ip_addr.IpAddr.{IpAddr};
ghost use Rattle.cedar_extensions.specs.Decimals as decimals;
ghost use Rattle.cedar_extensions.specs.Durations as durations;
ghost use Rattle.cedar_extensions.specs.IpAddrs as ranges;
ghost use Rattle.cedar_extensions.specs.Datetimes as moments;
ghost use Rattle.cedar_extensions.specs.Ranges.{IsWithin, is_within};

/// A text stands for one decimal, one duration, one range of addresses and one moment at most.
pub fn texts_are_unique()
    ensures decimals { (text : List ℕ) (m n : ℤ) →
        decimals.StandsFor text m → decimals.StandsFor text n → m ≡ n }
    ensures durations { (text : List ℕ) (m n : ℤ) →
        durations.StandsFor text m → durations.StandsFor text n → m ≡ n }
    ensures ranges { (text : List ℕ) (a b : IpAddr) (m n : ℕ) →
        ranges.StandsFor text a m → ranges.StandsFor text b n → (a ≡ b) × (m ≡ n) }
    ensures moments { (text : List ℕ) (m n : ℤ) →
        moments.StandsFor text m → moments.StandsFor text n → m ≡ n }
{}

/// A range is in another exactly if its prefix is no shorter and its first bits are those of the
/// other.
pub fn ranges_by_bits()
    ensures { (width a p b q : ℕ) → p ≤ width → q ≤ width → a < 2 ^ width →
        IsTrue (is_within width a p b q) ↔ IsWithin width a p b q }
{}
