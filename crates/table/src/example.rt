// The built-in example: two listings of paths are read and compared.
pub const SCRIPT: &[u8] = b"program
  table(string path, integer edits) disk, server;
  read [\"disk\"] disk;
  read [\"server\"] server;
  write \"only on the disks\";
  write project [path] select [not exists [path == p] rename [p, e] server] disk;
  write \"only on the servers\";
  write project [path] select [not exists [path == p] rename [p, e] disk] server;
  write \"after the update\";
  write update [edits = 0] disk
end
";
