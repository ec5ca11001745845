mod lends;
mod places;
