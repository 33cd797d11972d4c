mod deletes;
mod inserts;
mod lists;
