mod edits;
mod page;
mod report;
mod rows;
mod runner;
mod scripts;
