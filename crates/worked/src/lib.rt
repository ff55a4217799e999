// Tests over the layers together: the worked figures of docs/RULES.md, and damaged words.
#![tactic(auto)]

#[cfg(test)]
mod damaged;
#[cfg(test)]
mod drawn;
#[cfg(test)]
mod figures;
#[cfg(test)]
mod month;
#[cfg(test)]
mod priced;
