//! What a passed model means, and its records.
#![tactic(auto)]

mod atoms;
mod files;
mod kind;
mod order;
mod records;
mod resets;
mod views;
mod words;

pub use atoms::Atoms;
pub use bound::Atom;
pub use files::Files;
pub use order::{Bads, Commands, Invariants, Zones};
pub use records::{Record, Records};
pub use resets::{Reset, Resets};
pub use views::{Command, Condition, Guarded, Zone};

#[cfg(test)]
mod tests {
    use super::*;
    use std::test::Fail;

    // An urgent command: if Boolean 0 and not Boolean 1, set 2 and clear 3; clock 1 gets 7 and clock 3 gets 9; and an
    // atom, clock 1 minus clock 2 below -2. (The look-over would refuse the atom; a reader does not ask.)
    const COMMAND: [u8; 40] = [
        0x30, 0, 0, 1, 0x40, 0, 0, 1, 0x40, 0, 0, 2, 0x40, 0, 0, 4, 0x40, 0, 0, 8, 0x50, 0, 0, 5,
        0xA8, 0, 0, 7, 0xA8, 0, 0, 9, 0x90, 0, 1, 0x12, 0xA7, 0xFF, 0xFF, 0xFE,
    ];

    #[test]
    fn command(rt: HostRuntime) {
        let command = Command { bytes: &COMMAND };
        assert!(rt; command.urgent());
        let Condition { ones, zeros } = command.condition();
        assert_eq!(rt; ones, 1);
        assert_eq!(rt; zeros, 2);
        assert_eq!(rt; command.booleans_after(0b1001), 0b0101);
        assert_eq!(rt; command.booleans_after(0b0000), 0b0100);
    }

    #[test]
    fn conditions(rt: HostRuntime) {
        let condition = Condition { ones: 1, zeros: 2 };
        assert!(rt; condition.holds(0b101));
        assert!(rt; !condition.holds(0b100));
        assert!(rt; !condition.holds(0b011));
        assert!(rt; !Condition { ones: 1, zeros: 1 }.holds(1));
    }

    #[test]
    fn resets(rt: HostRuntime) -> Result<(), Fail> {
        let mut resets = (Command { bytes: &COMMAND }).resets();
        let Some(first) = resets.next() else {
            assert!(rt; false);
            return Ok(());
        };
        assert_eq!(rt; first.clock, 1);
        assert_eq!(rt; first.number, 7);
        let Some(second) = resets.next() else {
            assert!(rt; false);
            return Ok(());
        };
        assert_eq!(rt; second.clock, 3);
        assert_eq!(rt; second.number, 9);
        assert!(rt; resets.next().is_none());
        Ok(())
    }

    #[test]
    fn atoms(rt: HostRuntime) -> Result<(), Fail> {
        let mut atoms = (Command { bytes: &COMMAND }).atoms();
        let Some(atom) = atoms.next() else {
            assert!(rt; false);
            return Ok(());
        };
        assert_eq!(rt; atom.i, 1);
        assert_eq!(rt; atom.j, 2);
        assert_eq!(rt; atom.d, -2);
        assert!(rt; atom.strict);
        assert!(rt; atoms.next().is_none());
        Ok(())
    }
}
