// The memory that is lent to a queue or a mailbox.
ghost use Rattle.std.specs.Prelude.{◌≡◌};
ghost use Rattle.channel.specs.Meaning.{lendable};
ghost use Rattle.channel.specs.Memory.{Fitted};
ghost use Rattle.channel.specs.declared.fault.ChannelFault.TheVariants.{Size};

use crate::fault::ChannelFault;

// The fewest bytes that a channel is made in, and the most.
const SMALLEST: usize = 128;

const LARGEST: usize = 65_536;

// Memory in which no channel could be made, given back as it was.
#[derive(Drop)]
pub struct Unfit<'a> {
    pub memory: &'a mut [u8],
}

// As a refusal it is 18.
impl<'a> From<Unfit<'a>> for ChannelFault {
    ghost from_gives = { λ e r. r ≡ Size };

    fn from(unfit: Unfit<'a>) -> ChannelFault {
        ChannelFault::Size
    }
}

// Whether a channel can be made in so many bytes.
pub fn is_lendable(len: usize) -> bool
    ensures { result ≡ lendable len }
{
    (SMALLEST..=LARGEST).contains(&len)
}

// The memory, if a channel can be made in it.
pub fn fit<'a>(memory: &'a mut [u8]) -> Result<&'a mut [u8], Unfit<'a>>
    ensures { Fitted memory.old result }
{
    if is_lendable(memory.len()) {
        Ok(memory)
    } else {
        Err(Unfit { memory })
    }
}
