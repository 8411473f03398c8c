//! Of which sources the program is, and by which toolchain. `./pgsub --build` writes this file anew
//! where it builds.

/// The commit that changed its sources last.
pub(crate) const COMMIT: &str = "unknown";

/// The toolchain's kit.
pub(crate) const KIT: &str = "unknown";
