mod relief;
