// The tables that an end is lent.
use crate::settings::Settings;

#[derive(Drop)]
pub struct Tables {
    pub nodes: [u8; 65536],
    pub shingles: [u8; 98304],
    pub cells: [u8; 7680],
    pub state: [u8; 48],
}

impl Tables {
    // Tables of one byte over and over.
    pub fn filled(byte: u8) -> Tables {
        Tables {
            nodes: [byte; 65536],
            shingles: [byte; 98304],
            cells: [byte; 7680],
            state: [byte; 48],
        }
    }

    // Sets a sender up for the string.
    pub fn set_up(&mut self, settings: Settings, string: &[u8]) -> u64 {
        let shape = settings.shape;
        rcds::rcds_sender_setup(
            shape.window,
            shape.fan_out,
            shape.levels,
            shape.nominal,
            settings.width,
            string,
            &mut self.nodes,
            &mut self.shingles,
            &mut self.cells,
            &mut self.state,
        )
    }

    // Builds the strata of the string that the sender was set up for.
    pub fn build_strata(&self, string: &[u8], strata: &mut [u8]) -> u64 {
        rcds::rcds_strata_build(
            &self.state,
            string,
            &self.nodes,
            &self.shingles,
            &self.cells,
            strata,
        )
    }

    // About how many shingles differ between the string's strata and the other's.
    pub fn estimate(&self, string: &[u8], theirs: &[u8], own: &[u8]) -> u64 {
        rcds::rcds_strata_estimate(
            &self.state,
            string,
            &self.nodes,
            &self.shingles,
            &self.cells,
            theirs,
            own,
        )
    }
}
