//! The two files that a program is run on. No contract can say what is read, so this is tested.
#![tactic(auto)]

use std::fs::File;
use std::io::Read;
use std::{env, io};

// At most this much of a file is read: one byte more than the longest that passes the look-over.
pub const ENOUGH: u64 = 65_533;

fn read(rt: &HostRuntime, path: &str) -> io::Result<Vec<u8>> {
    let mut bytes = Vec::new(rt.alloc());
    File::open(rt, path)?.take(ENOUGH).read_to_end(&mut bytes)?;
    Ok(bytes)
}

// The bytes of a file. One that can't be opened or read counts as empty.
pub fn contents(rt: &HostRuntime, path: &str) -> Vec<u8> {
    read(rt, path).unwrap_or_else(|_| Vec::new(rt.alloc()))
}

// The file that an argument names, or else the one of this name in the current folder.
fn named(rt: &HostRuntime, argument: Option<String>, name: &str) -> Vec<u8> {
    contents(rt, argument.as_deref().unwrap_or(name))
}

// The model and the zone list that two arguments name, or else MODEL and ZONES.
fn both_named(
    rt: &HostRuntime,
    model: Option<String>,
    zones: Option<String>,
) -> (Vec<u8>, Vec<u8>) {
    let model = named(rt, model, "MODEL");
    let zones = named(rt, zones, "ZONES");
    (model, zones)
}

// The model and the zone list that the program's arguments name; without arguments MODEL and ZONES.
pub fn model_and_zones(rt: &HostRuntime) -> io::Result<(Vec<u8>, Vec<u8>)> {
    let mut args = env::args(rt)?;
    let _program = args.next();
    let model = args.next();
    let zones = args.next();
    Ok(both_named(rt, model, zones))
}

#[cfg(test)]
mod tests {
    use super::*;
    use std::fs;
    use std::test::Fail;

    fn length_read(rt: &HostRuntime, length: usize) -> Result<usize, Fail> {
        let bytes = vec![in rt.alloc(); 7u8; length]?;
        fs::write(rt, "bytes", bytes.as_slice())?;
        let read = contents(rt, "bytes");
        fs::remove_file(rt, "bytes")?;
        Ok(read.len())
    }

    #[test]
    fn a_long_file_is_read_past_the_limit(rt: HostRuntime) -> Result<(), Fail> {
        assert_eq!(rt; length_read(&rt, 0)?, 0);
        assert_eq!(rt; length_read(&rt, 65_532)?, 65_532);
        assert_eq!(rt; length_read(&rt, 65_533)?, 65_533);
        assert_eq!(rt; length_read(&rt, 70_000)?, 65_533);
        Ok(())
    }

    #[test]
    fn without_arguments_model_and_zones(rt: HostRuntime) -> Result<(), Fail> {
        fs::write(&rt, "MODEL", &[1u8])?;
        fs::write(&rt, "ZONES", &[2u8, 3])?;
        // A test is always given an argument, its own name, so the arguments that a program may lack are handed over here.
        let (model, zones) = both_named(&rt, None, None);
        fs::remove_file(&rt, "MODEL")?;
        fs::remove_file(&rt, "ZONES")?;
        assert_eq!(rt; model.len(), 1);
        assert_eq!(rt; zones.len(), 2);
        Ok(())
    }

    #[test]
    fn one_argument_names_the_model(rt: HostRuntime) -> Result<(), Fail> {
        // The argument that a test is given.
        let argument = "tests::one_argument_names_the_model";
        fs::write(&rt, argument, &[1u8])?;
        fs::write(&rt, "ZONES", &[2u8, 3])?;
        let (model, zones) = model_and_zones(&rt)?;
        fs::remove_file(&rt, argument)?;
        fs::remove_file(&rt, "ZONES")?;
        assert_eq!(rt; model.len(), 1);
        assert_eq!(rt; zones.len(), 2);
        Ok(())
    }

    #[test]
    fn a_missing_file_is_empty(rt: HostRuntime) {
        assert_eq!(rt; contents(&rt, "no such file").len(), 0);
        assert_eq!(rt; contents(&rt, ".").len(), 0);
    }
}
