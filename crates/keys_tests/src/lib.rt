//! FOLD files as they are read from texts: the first misfit of each, or the file as it is written
//! again; frames with what they inherit; the drawings of frames and of CP lines; and files of drawings.
#![tactic(auto)]

#[cfg(test)]
mod drawings;
#[cfg(test)]
mod files;
#[cfg(test)]
mod frames;
#[cfg(test)]
mod lines;
