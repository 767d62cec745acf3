//! A first program: which of some strings are versions, and which of these the list contains. `docs/CALLING.md` shows it.
#![tactic(auto)]

use anyhow::Result;
use pep440_rs::{Version, VersionSpecifiers};

fn main(rt: HostRuntime) -> Result<()> {
    let wanted = VersionSpecifiers::from_str(rt.alloc(), ">=1.16, <2.0")?;
    for text in ["1.19", "2.0.dev1", "1.19.x"] {
        match Version::from_str(rt.alloc(), text) {
            Ok(version) => {
                let answer = wanted.contains(rt.alloc(), &version)?;
                println!(rt; "{version}: {answer}")?;
            }
            Err(error) => println!(rt; "{error}")?,
        }
    }
    Ok(())
}
