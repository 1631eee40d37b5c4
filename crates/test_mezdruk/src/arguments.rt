// Arguments of the command line, each list with its whole report, and their order.
mod order;
mod read;
mod rows;
