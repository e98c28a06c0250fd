//! What is drawn for the turns of a role: which act it does, and what comes with it.

/// What is drawn for a turn.
#[derive(Clone, Copy)]
pub struct Draw {
    /// Which of the acts that are offered, counted round.
    pub act: usize,
    /// The value of a message.
    pub value: i64,
    /// Which branch is taken, or whether there is another turn.
    pub flag: bool,
    /// Whether a scope keeps its body.
    pub keeps: bool,
    /// The number of an update.
    pub epoch: u32,
}

/// Where draws come from.
#[derive(Clone, Copy)]
pub enum Draws {
    /// In an order that is the same for each role, from the turn of this number on.
    Ordered(u32),
    /// At random, from this seed on.
    Random(u64),
}

impl Draws {
    /// The draw for the next turn.
    pub fn next(&mut self) -> Draw {
        match *self {
            Draws::Ordered(number) => {
                *self = Draws::Ordered(number.wrapping_add(1));
                Draw::of_turn(number)
            }
            Draws::Random(seed) => {
                let number = next_number(seed);
                *self = Draws::Random(number);
                Draw::of_number(number)
            }
        }
    }
}

impl Draw {
    /// For the turn of that number: the value 3, a flag that is false at every fourth, and an
    /// update at each scope.
    pub fn of_turn(number: u32) -> Draw {
        Draw {
            act: number as usize,
            value: 3,
            flag: number % 4 != 0,
            keeps: false,
            epoch: number,
        }
    }

    /// What the bits of a random number say. Three flags of four are true, and one scope of four
    /// keeps its body.
    fn of_number(number: u64) -> Draw {
        Draw {
            act: (number >> 52) as usize,
            value: ((number >> 48) % 16) as i64,
            flag: (number >> 46) % 4 != 0,
            keeps: (number >> 44) % 4 == 0,
            epoch: ((number >> 34) % 1024) as u32,
        }
    }
}

/// The random number after another one, of which the high bits are the more random ones.
fn next_number(number: u64) -> u64 {
    number
        .wrapping_mul(6364136223846793005)
        .wrapping_add(1442695040888963407)
}
