// Worked labels, as tests of the layers below.
#![tactic(auto)]

#[cfg(test)]
mod drafts;
#[cfg(test)]
mod frames;
#[cfg(test)]
mod harbour;
#[cfg(test)]
mod hearing;
#[cfg(test)]
mod labels;
#[cfg(test)]
mod shown;
