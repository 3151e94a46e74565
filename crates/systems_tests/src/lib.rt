// Tests of the three systems and of the limits of both kinds.

#![tactic(auto)]

#[cfg(test)]
mod limits;
#[cfg(test)]
mod quotients;
