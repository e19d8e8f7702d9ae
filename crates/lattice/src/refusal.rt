// Who refused a call, and by which number.
use std::fmt;

// The layers, from the values up.
#[derive(Clone, Copy, PartialEq, Eq, Debug)]
pub enum Layer {
    Kind,
    Wire,
    Channel,
    Replica,
    Group,
}

// What a caller is told of a refusal that passed up through layers.
#[derive(Clone, Copy, PartialEq, Eq, Debug)]
pub struct Refusal {
    pub layer: Layer,
    pub number: u8,
}

impl fmt::Display for Layer {
    fn fmt<W: fmt::Write>(&self, f: &mut fmt::Formatter<W>) -> fmt::Result {
        f.write_str(match self {
            Layer::Kind => "kind",
            Layer::Wire => "wire",
            Layer::Channel => "channel",
            Layer::Replica => "replica",
            Layer::Group => "group",
        })
    }
}

// As support writes it down: `channel 12`.
impl fmt::Display for Refusal {
    fn fmt<W: fmt::Write>(&self, f: &mut fmt::Formatter<W>) -> fmt::Result {
        write!(f, "{} {}", self.layer, self.number)
    }
}
